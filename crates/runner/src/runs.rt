// Running a script's lines.
ghost use Rattle.std.specs.Prelude.{IfOk, None, vec_len};
ghost use Rattle.ssd1329.specs.Chip.{blank};
ghost use Rattle.ssd1329.specs.Meaning.{wires};
ghost use Rattle.link.specs.Listed.{listing_meaning};
ghost use Rattle.link.specs.Panels.{fresh_link};
ghost use Rattle.link.specs.Space.{capacity, room_in};
ghost use Rattle.runner.specs.Runs.{RanFresh};

use crate::plans::planned;
use drawing::Pen;
use link::ListingLink;
use refusal::Refusal;
use screen::{Answer, Screen, perform};
use script::Line;
use ssd1329::Wiring;
use std::alloc::{AllocError, Global};

// What a script has answered, and the link that it was sent on. Two lists, since a line that is refused has no answer.
#[derive(Drop)]
pub struct Outcome {
    // of the lines that have calls
    pub answers: Vec<Answer>,
    // for each line why it has no call, or nothing where it has one
    pub refused: Vec<Option<Refusal>>,
    pub link: ListingLink,
}

// Performs the lines' calls on a fresh screen over a listing link of that buffer.
pub fn run(
    heap: Global,
    wiring: Wiring,
    buffer: Vec<u8>,
    lines: Vec<Line>,
) -> Result<Outcome, AllocError>
    ensures { IfOk result (λ o.
        RanFresh (wires wiring) (fresh_link blank (room_in None (capacity (vec_len buffer)))) lines.items
        o.answers.items o.refused.items (listing_meaning o.link)) }
{
    let plan = planned(heap, lines)?;
    let Ok(mut screen) = Screen::new(wiring, ListingLink::new(buffer)) else {
        unreachable()
    };
    let mut pen = Pen::new();
    let answers = perform(heap, &mut screen, &mut pen, plan.calls.as_slice())?;
    Ok(Outcome {
        answers,
        refused: plan.refused,
        link: screen.into_link(),
    })
}
