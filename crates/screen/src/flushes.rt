// A flush: one slot of the link, with the settings that are owed, the due bytes in blocks, and a closing command.
ghost use Rattle.std.specs.Prelude.{◌≡◌, ◌<◌, not, ◌&&◌, ◌||◌, ◌==◌, nat_lt};
ghost use Rattle.screen.specs.Flushing.{setting, closing, Found, Told, FlushStep, WindowStep};
ghost use Rattle.screen.specs.Screens.{shows};
ghost use Rattle.screen.specs.Slots.{Sends};

use crate::answers::{FlushFault, LeftOver, Place};
use crate::screens::{Owed, Screen};
use crate::slots::Slot;
use crate::sweeps::all_due;
use link::Link;
use marks::first_run;
use ssd1329::Transfer;
use ssd1329::commands::{NOTHING, SET_OFFSET, SET_REMAP, WAKE};

impl<L: Link> Slot<'_, L> {
    // Sends a setting if it is owed and there is room for it beside the closing command: whether it is owed still.
    // The wiring keeps the value, and only the debt changes; so they are not one Option.
    fn send_setting(&mut self, owed: bool, opcode: u8, value: u8) -> bool
        requires { 0 < self.old.left }
        ensures owed { result ≡ (owed && nat_lt self.old.left 3) }
        ensures sends { Sends L.Link self.old (setting opcode value owed result) self.new }
        ensures left { 0 < self.new.left }
    {
        if owed && self.left >= 3 {
            self.send_each(&[opcode, value], Transfer::Command);
            false
        } else {
            owed
        }
    }
}

// The command that closes a flush, by two facts of the screen that no value goes with.
fn closing_byte(lit: bool, all: bool) -> u8
    ensures { result ≡ closing lit all }
{
    if all && !lit { WAKE } else { NOTHING }
}

// Once nothing was left to send, the module is lit.
fn lit_after(lit: bool, all: bool) -> bool
    ensures { result ≡ (lit || all) }
{
    lit || all
}

// Whether nothing is left to send.
fn complete(owed: Owed, due: u32) -> bool
    ensures { result ≡ ((not owed.remap && not owed.offset) && due == 0) }
{
    !owed.remap && !owed.offset && due == 0
}

// The first due byte.
fn first_due(due: &[u64; 128]) -> Option<Place>
    ensures { Found due.now result }
{
    let line = due.iter().position(|w| *w != 0)?;
    let run = first_run(due[line])?;
    Some(Place {
        line: line as u8,
        column: run.start as u8,
    })
}

fn told(all: bool, count: u32, left: u32, due: &[u64; 128]) -> Result<u32, FlushFault>
    ensures { Told all count left due.now result }
{
    if all {
        Ok(count)
    } else {
        Err(FlushFault::LeftOver(LeftOver {
            count,
            due: left,
            first: first_due(due),
        }))
    }
}

impl<L: Link> Screen<L> {
    // Sends what is left to send over one slot of n transfers.
    // It is not inlined: each narrowing that is open keeps the frame of the function that makes the calls inside it.
    #[inline(never)]
    pub fn flush(&mut self, n: u32) -> Result<u32, FlushFault>
        ensures step { FlushStep (shows L.Link self.old) n result (shows L.Link self.new) }
        ensures window { WindowStep (shows L.Link self.old) n result (shows L.Link self.new) }
    {
        let grant = self.link.open(n)?;
        if self.lit && complete(self.owed, all_due(&self.canvas.due)) {
            self.link.close().unwrap();
            return Ok(0);
        }
        let mut slot = Slot {
            link: &mut self.link,
            left: grant,
        };
        let remap = slot.send_setting(self.owed.remap, SET_REMAP, self.wiring.remap());
        let offset = slot.send_setting(self.owed.offset, SET_OFFSET, self.wiring.offset());
        slot.sweep(&self.canvas.cells, &mut self.canvas.due);
        let owed = Owed { remap, offset };
        let rest = all_due(&self.canvas.due);
        let all = complete(owed, rest);
        let last = closing_byte(self.lit, all);
        slot.send(Transfer::Command(last));
        let count = grant - slot.left;
        self.link.close().unwrap();
        self.lit = lit_after(self.lit, all);
        self.owed = owed;
        told(all, count, rest, &self.canvas.due)
    }
}
