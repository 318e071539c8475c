// What a listing shows, as text.
ghost use Rattle.std.specs.Prelude.{ℕ};
ghost use Rattle.ssd1329.specs.Meaning.{chip, wires};
ghost use Rattle.ssd1329.specs.Glass.{unmarked};
ghost use Rattle.listing.specs.Listing.{RefusedAt};
ghost use Rattle.listing.specs.Replay.{Listing, Viewed};
ghost use Rattle.listing.specs.Viewing.{Writes, refusal_line, rows_above, view_text};

use crate::reads::replay;
use ssd1329::{Controller, Shows, Wiring};
use std::io;
use std::io::Write;

// A line for each dot above 0, row by row. Nothing is allocated: a row's text has at most 1,408 bytes.
fn show_dots<W: Write>(controller: &Controller, wiring: &Wiring, out: &mut W) -> io::Result<()>
    ensures { Writes W.contents out.old out.new (rows_above (wires wiring.now) (chip controller.now) 128) result }
{
    let mut row = [0u8; 1408];
    for y in 0..128 {
        let n = controller.row_text(wiring, y, &mut row).unwrap();
        out.write_all(&row[..n])?;
    }
    Ok(())
}

// Replays the text, and writes what a module of that wiring then shows: astray, dark, or lit and its dots.
// Of a text that is no listing it writes the refusal and its place.
pub fn view_on<W: Write>(
    text: &[u8],
    wiring: &Wiring,
    controller: &mut Controller,
    out: &mut W,
) -> io::Result<()>
    ensures replays { Viewed text.now (chip controller.old) (chip controller.new) }
    ensures refuses { (place : ℕ) → RefusedAt text.now place → Writes W.contents out.old out.new (refusal_line place) result }
    ensures shows { Listing text.now → Writes W.contents out.old out.new (view_text (wires wiring.now) (chip controller.new)) result }
{
    if let Err(bad) = replay(text, controller) {
        return writeln!(out, "{}\t{}", bad.number(), bad.place);
    }
    let shows = controller.shows();
    writeln!(out, "{shows}")?;
    if shows == Shows::Lit {
        show_dots(controller, wiring, out)?;
    }
    Ok(())
}

// The same on a module without marks.
pub fn view<W: Write>(text: &[u8], controller: &mut Controller, out: &mut W) -> io::Result<()>
    ensures replays { Viewed text.now (chip controller.old) (chip controller.new) }
    ensures refuses { (place : ℕ) → RefusedAt text.now place → Writes W.contents out.old out.new (refusal_line place) result }
    ensures shows { Listing text.now → Writes W.contents out.old out.new (view_text unmarked (chip controller.new)) result }
{
    view_on(text, &Wiring::plain(), controller, out)
}
