// What an answer is, as text.
use screen::{Answer, FlushFault, LeftOver, Place};
use std::fmt;

// An answer as the line that is printed of it, its newline too: each piece of a text is one write of the program's.
#[derive(Clone, Copy)]
pub struct Printed(pub Answer);

impl fmt::Display for Printed {
    fn fmt<W: fmt::Write>(&self, f: &mut fmt::Formatter<W>) -> fmt::Result {
        match self.0 {
            Answer::Judged(Ok(())) => writeln!(f, "ok"),
            Answer::Judged(Err(refusal)) => writeln!(f, "{}", refusal.number()),
            Answer::Ended => writeln!(f, "ok"),
            Answer::NoneOpen => writeln!(f, "none"),
            Answer::Flushed(Ok(count)) => writeln!(f, "done\t{count}"),
            Answer::Flushed(Err(fault)) => write!(f, "{}{}", fault.number(), Remaining(fault)),
        }
    }
}

// What a flush has left, after its number, and the newline.
#[derive(Clone, Copy)]
struct Remaining(FlushFault);

impl fmt::Display for Remaining {
    fn fmt<W: fmt::Write>(&self, f: &mut fmt::Formatter<W>) -> fmt::Result {
        let FlushFault::LeftOver(LeftOver { count, due, first }) = self.0 else {
            return writeln!(f);
        };
        match first {
            None => writeln!(f, "\t{count}\t{due}\tnone"),
            Some(Place { line, column }) => writeln!(f, "\t{count}\t{due}\t{line}\t{column}"),
        }
    }
}
