// Performing a script: each call in its turn, a narrowed drawing under the guard that narrows the pen.
ghost use Rattle.std.specs.Prelude.{◌≡◌, ◌+◌, ◌<◌, ◌≤◌, List, [], ◌∷◌, ◌++◌, length, if◌then◌else◌, IfOk, IfErr, vec_len, vec_capacity};
ghost use Rattle.drawing.specs.Pens.{PenMeaning};
ghost use Rattle.screen.specs.declared.scripts.Answer.TheVariants.{Judged};
ghost use Rattle.screen.specs.Scripts.{world, Reached, Performed};

use crate::screens::Screen;
use crate::scripts::{Answer, Call};
use drawing::{Pen, Rectangle};
use link::Link;
use picture::Picture;
use refusal::Refusal;
use std::alloc::{AllocError, Global};
use std::slice;

// One answer more, where there is room for it.
fn note(answers: &mut Vec<Answer>, answer: Answer)
    requires { vec_len answers.old < vec_capacity answers.old }
    ensures items { answers.new.items ≡ answers.old.items ++ answer ∷ [] }
    ensures len { vec_len answers.new ≡ vec_len answers.old + 1 }
    ensures capacity { vec_capacity answers.old ≤ vec_capacity answers.new }
{
    answers.push(answer).unwrap();
}

// The same of what a call was judged. It is not inlined, nor is a flush: each narrowing that is open keeps the frame of
// the function that makes the calls inside it, with room for every answer that is made there.
#[inline(never)]
fn judge(answers: &mut Vec<Answer>, judged: Result<(), Refusal>)
    requires { vec_len answers.old < vec_capacity answers.old }
    ensures items { answers.new.items ≡ answers.old.items ++ Judged judged ∷ [] }
    ensures len { vec_len answers.new ≡ vec_len answers.old + 1 }
    ensures capacity { vec_capacity answers.old ≤ vec_capacity answers.new }
{
    note(answers, Answer::Judged(judged));
}

// Makes the calls up to an end that none of their narrowings matches, or all: whether there was such an end.
fn until_end<L: Link, P: Picture>(
    screen: &mut Screen<L>,
    pen: &mut Pen,
    calls: &mut slice::Iter<'_, Call<P>>,
    answers: &mut Vec<Answer>,
) -> bool
    requires { vec_len answers.old + length calls.old.rest.now ≤ vec_capacity answers.old }
    ensures ran { (stack : List PenMeaning) →
        Reached P.Picture
        (world L.Link screen.old pen.old stack) calls.old.rest.now
        answers.old.items answers.new.items
        (world L.Link screen.new pen.new stack) result calls.new.rest.now }
    ensures fewer { length calls.new.rest.now + (if result then 1 else 0) ≤ length calls.old.rest.now }
    ensures room { vec_len answers.new + (length calls.new.rest.now + (if result then 1 else 0)) ≤ vec_capacity answers.new }
{
    while let Some(call) = calls.next() {
        match call {
            Call::Ink(gray) => judge(answers, pen.ink(*gray)),
            Call::Dot(x, y) => judge(answers, screen.dot(pen, *x, *y)),
            Call::Bar(x, y, w, h) => judge(answers, screen.bar(pen, *x, *y, *w, *h)),
            Call::Place(picture, x, y) => judge(answers, screen.place(pen, picture, *x, *y)),
            Call::Flush(n) => note(answers, Answer::Flushed(screen.flush(*n))),
            Call::Narrow(x, y, w, h) => match Rectangle::new(*x, *y, *w, *h) {
                Err(refusal) => judge(answers, Err(refusal)),
                Ok(rectangle) => {
                    judge(answers, Ok(()));
                    let narrowed = pen.narrow(rectangle);
                    let ended = until_end(screen, narrowed.pen, calls, answers);
                    narrowed.end();
                    if !ended {
                        return false;
                    }
                    note(answers, Answer::Ended);
                }
            },
            Call::End => return true,
        }
    }
    false
}

// Makes each call of the script, and gives the answers. Narrowings that the script leaves open end with it.
// Where there is no memory for the answers, nothing is done.
pub fn perform<L: Link, P: Picture>(
    heap: Global,
    screen: &mut Screen<L>,
    pen: &mut Pen,
    script: &[Call<P>],
) -> Result<Vec<Answer>, AllocError>
    ensures performed { IfOk result (λ answers.
        Performed P.Picture
        (world L.Link screen.old pen.old []) script.now
        answers.items
        (world L.Link screen.new pen.new [])) }
    ensures no_memory { IfErr result (λ _.
        (screen.new ≡ screen.old) × (pen.new ≡ pen.old)) }
{
    let mut answers = Vec::with_capacity(heap, script.len())?;
    let mut calls = script.iter();
    while until_end(screen, pen, &mut calls, &mut answers) {
        note(&mut answers, Answer::NoneOpen);
    }
    Ok(answers)
}
