// Scripts: calls that are written down, to be made one after the other, and what they answer.
use crate::answers::FlushFault;
use refusal::Refusal;

// A call with its arguments; P is a kind of picture.
#[derive(PartialEq, Eq, Debug, Drop)]
pub enum Call<P> {
    Ink(u8),
    Dot(i32, i32),
    Bar(i32, i32, u32, u32),
    Place(P, i32, i32),
    // begins a narrowed drawing
    Narrow(i32, i32, u32, u32),
    // ends the latest narrowed drawing
    End,
    Flush(u32),
}

// What a call of a script answered.
#[derive(Clone, Copy, PartialEq, Eq, Debug)]
pub enum Answer {
    // of ink, dot, bar, place and narrow: accepted, or why not
    Judged(Result<(), Refusal>),
    // the latest narrowing has ended
    Ended,
    // an end with no narrowing open; nothing was done
    NoneOpen,
    Flushed(Result<u32, FlushFault>),
}
