// What a script is answered, as text, which is tested. The allocator and the writer are handed down, as in the library.
use crate::printed::Printed;
use crate::runs::{Outcome, run};
use crate::wanted::Wanted;
use link::ListingLink;
use listing::{replay, view_on};
use script::{Script, Unread, read};
use ssd1329::{Controller, Wiring};
use std::alloc::Global;
use std::io;
use std::io::Write;

// One byte more than the longest listing buffer: enough to see that one is too long.
const TOO_LONG: u32 = 65536;

// A line for each line of the script, its card and its buffer first: a refused picture has its refusal, every
// other line the next answer.
fn write_answers<W: Write>(out: &mut W, outcome: &Outcome) -> io::Result<()> {
    writeln!(out, "ok")?;
    writeln!(out, "ok")?;
    let mut answers = outcome.answers.iter();
    for refused in &outcome.refused {
        if let Some(refusal) = *refused {
            writeln!(out, "{}", refusal.number())?;
        } else if let Some(answer) = answers.next() {
            write!(out, "{}", Printed(*answer))?;
        }
    }
    Ok(())
}

// A plain PGM image of the glass, 16 dots to a line of text.
fn write_image<W: Write>(out: &mut W, controller: &Controller, wiring: &Wiring) -> io::Result<()> {
    writeln!(out, "P2\n128 128\n15")?;
    for y in 0..128 {
        for x in 0..128 {
            let gray = controller.dot(wiring, x, y).unwrap_or(0);
            let after = if x % 16 < 15 { ' ' } else { '\n' };
            write!(out, "{gray}{after}")?;
        }
    }
    Ok(())
}

fn write_wanted<W: Write>(
    heap: Global,
    out: &mut W,
    wanted: Wanted,
    wiring: &Wiring,
    outcome: &Outcome,
) -> anyhow::Result<()> {
    let text = outcome.link.text();
    match wanted {
        Wanted::Answers => write_answers(out, outcome)?,
        Wanted::Listing => out.write_all(text)?,
        Wanted::Glass => view_on(text, wiring, &mut Controller::blank(heap)?, out)?,
        Wanted::Image => {
            let mut controller = Controller::blank(heap)?;
            // never refused: a link's text is a listing
            let _ = replay(text, &mut controller);
            write_image(out, &controller, wiring)?;
        }
    }
    Ok(())
}

fn write_script<W: Write>(
    heap: Global,
    script: Script,
    wanted: Wanted,
    out: &mut W,
) -> anyhow::Result<()> {
    let Script {
        card,
        buffer,
        lines,
    } = script;
    // What is refused is what was asked for here, and no error.
    let wiring = match Wiring::try_from(card) {
        Ok(wiring) => wiring,
        Err(refusal) => return Ok(writeln!(out, "{}", refusal.number())?),
    };
    let bytes = vec![in heap; 0u8; buffer.min(TOO_LONG) as usize]?;
    if let Err(refusal) = ListingLink::check(bytes.as_slice()) {
        if wanted == Wanted::Answers {
            writeln!(out, "ok")?;
        }
        return Ok(writeln!(out, "{}", refusal.number())?);
    }
    let outcome = run(heap, wiring, bytes, lines)?;
    write_wanted(heap, out, wanted, &wiring, &outcome)
}

// Reads a script, performs it, and writes what is wanted of it. Of a text that cannot be read it writes the number
// of the first bad line, of a refused card or buffer the refusal, and nothing more.
pub fn bench<W: Write>(
    heap: Global,
    text: &[u8],
    wanted: Wanted,
    out: &mut W,
) -> anyhow::Result<()> {
    match read(heap, text) {
        Err(Unread::BadLine(number)) => Ok(writeln!(out, "line\t{number}")?),
        script => write_script(heap, script?, wanted, out),
    }
}
