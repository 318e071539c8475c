// Lines, by the word that begins them.
ghost use Rattle.std.specs.Prelude.{◌≡◌, ◌≢◌, IfErr};
ghost use Rattle.script.specs.declared.fault.Fault.TheVariants.{Unreadable};
ghost use Rattle.script.specs.declared.fault.Unmade.TheVariants.{NotRead};
ghost use Rattle.script.specs.declared.words.Verb.TheVariants.{Place};
ghost use Rattle.script.specs.Faults.{Reads, TakesOrRefuses};
ghost use Rattle.script.specs.Calls.{line_means, call_means, refuses};
ghost use Rattle.script.specs.Lines.{line_by, line};

use crate::fault::{Fault, Unmade};
use crate::fields::Fields;
use crate::figures::Figure;
use crate::figures::takes::take_figure;
use crate::numbers::as_byte;
use crate::script::Line;
use crate::words::Verb;
use screen::Call;
use std::alloc::Global;

fn take_call(heap: Global, verb: Verb, fields: &mut Fields<'_>) -> Result<Call<Figure>, Unmade>
    ensures said { TakesOrRefuses call_means refuses (line_by verb) fields.old fields.new result }
    ensures plain { verb ≢ Place → IfErr result (λ unmade. unmade ≡ NotRead Unreadable) }
{
    match verb {
        Verb::Ink => {
            let gray = fields.read()?;
            Ok(Call::Ink(as_byte(gray)))
        }
        Verb::Dot => {
            let at = fields.corner()?;
            Ok(Call::Dot(at.x, at.y))
        }
        Verb::Bar => {
            let at = fields.corner()?;
            let size = fields.extent()?;
            Ok(Call::Bar(at.x, at.y, size.width, size.height))
        }
        Verb::Place => {
            let at = fields.corner()?;
            let picture = take_figure(heap, fields)?;
            Ok(Call::Place(picture, at.x, at.y))
        }
        // read as a bar is; one function for both would be longer than these two lines
        Verb::Narrow => {
            let at = fields.corner()?;
            let size = fields.extent()?;
            Ok(Call::Narrow(at.x, at.y, size.width, size.height))
        }
        Verb::End => Ok(Call::End),
        Verb::Flush => {
            let grant = fields.read()?;
            Ok(Call::Flush(grant))
        }
    }
}

// A line, without its newline.
pub fn read_line(heap: Global, text: &[u8]) -> Result<Line, Fault>
    ensures { Reads line_means (line text.now) result }
{
    let mut fields = Fields::of(text);
    let verb = fields.read()?;
    // a refused picture is an answer too, once the line is read to its end
    match take_call(heap, verb, &mut fields) {
        Ok(call) => fields.end(Ok(call)),
        Err(Unmade::Refused(refusal)) => fields.end(Err(refusal)),
        Err(Unmade::NotRead(fault)) => Err(fault),
    }
}
