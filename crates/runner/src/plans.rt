// What a script's lines ask for.
ghost use Rattle.std.specs.Prelude.{IfOk};
ghost use Rattle.runner.specs.Plans.{Planned};

use refusal::Refusal;
use screen::Call;
use script::{Figure, Line};
use std::alloc::{AllocError, Global};

// Two lists of two lengths, since a line that is refused has no call.
// The calls of some lines; and for each line why it has none, or nothing where it has one.
#[derive(Drop)]
pub struct Plan {
    pub calls: Vec<Call<Figure>>,
    pub refused: Vec<Option<Refusal>>,
}

pub fn planned(heap: Global, lines: Vec<Line>) -> Result<Plan, AllocError>
    ensures { IfOk result (λ p. Planned lines.items p.calls.items p.refused.items) }
{
    let mut calls = Vec::new(heap);
    let mut refused = Vec::new(heap);
    for line in lines {
        match line {
            Ok(call) => {
                calls.push(call)?;
                refused.push(None)?;
            }
            Err(refusal) => refused.push(Some(refusal))?,
        }
    }
    Ok(Plan { calls, refused })
}
