// Reading a whole script.
ghost use Rattle.script.specs.Ahead.{ahead};
ghost use Rattle.script.specs.Scripts.{calls_from, script};
ghost use Rattle.script.specs.Whole.{lines_mean, script_means, Answers};

use crate::ahead::Ahead;
use crate::heads::{read_buffer, read_card};
use crate::lines::read_line;
use crate::script::{Line, Script, Unread};
use std::alloc::Global;

// The lines from the third on.
#[tactic(auto, using(crate::proofs::Running::turns))]
fn read_lines(heap: Global, mut text: Ahead<'_>) -> Result<Vec<Line>, Unread>
    ensures { Answers lines_mean (calls_from 3 (ahead text.entry)) result }
{
    let mut lines = Vec::new(heap);
    // no `for`: bytes after the last newline are no end, but a line that cannot be read
    while !text.ended() {
        let number = 3 + lines.len() as u32;
        let line = text.next().ok_or(Unread::BadLine(number))?;
        let line = read_line(heap, line).map_err(|fault| fault.at(number))?;
        lines.push(line)?;
    }
    Ok(lines)
}

// The script that a text says, or the number of its first line that cannot be read.
pub fn read(heap: Global, text: &[u8]) -> Result<Script, Unread>
    ensures { Answers script_means (script text.now) result }
{
    let mut ahead = Ahead::of(text);
    let first = ahead.next().ok_or(Unread::BadLine(1))?;
    let card = read_card(first).map_err(|fault| fault.at(1))?;
    let second = ahead.next().ok_or(Unread::BadLine(2))?;
    let buffer = read_buffer(second).map_err(|fault| fault.at(2))?;
    let lines = read_lines(heap, ahead)?;
    Ok(Script {
        card,
        buffer,
        lines,
    })
}
