// What a transfer does, by the rules in their order.
ghost use Rattle.std.specs.Prelude.{◌≡◌, true, Some, None};
ghost use Rattle.ssd1329.specs.Meaning.{chip};
ghost use Rattle.ssd1329.specs.Chip.{swapped, put, stored, lost, awaiting, opcode_met, command_met, data_met, step};

use super::{Awaited, Controller, Pointer};
use crate::transfer::Transfer;
use crate::{commands, remap};

fn swapped(b: u8) -> u8
    ensures { result ≡ swapped b }
{
    b.rotate_left(4)
}

impl Controller {
    // Puts a byte at the pointers, and moves them on.
    fn put(&mut self, b: u8)
        ensures { chip self.new ≡ put (chip self.old) b }
    {
        let at = self.window.lines.at as usize * 64 + self.window.columns.at as usize;
        let byte = if self.registers.has(remap::HALVES_SWAPPED) {
            swapped(b)
        } else {
            b
        };
        self.memory[at] = byte;
        self.window.advance(self.registers.has(remap::RUNS_DOWN));
        self.held = None;
    }

    // A held byte is stored.
    pub(super) fn store_held(&mut self)
        ensures { chip self.new ≡ stored (chip self.old) }
    {
        if let Some(b) = self.held {
            self.put(b);
        }
    }

    fn go_astray(&mut self)
        ensures { chip self.new ≡ lost (chip self.old) }
    {
        self.astray = true;
    }

    fn await_next(&mut self, awaited: Awaited)
        ensures { chip self.new ≡ awaiting (chip self.old) awaited }
    {
        self.awaited = awaited;
    }

    fn opcode(&mut self, b: u8)
        ensures { chip self.new ≡ opcode_met (chip self.old) b }
    {
        match b {
            commands::SET_COLUMNS => self.await_next(Awaited::FirstColumn),
            commands::SET_LINES => self.await_next(Awaited::FirstLine),
            commands::SET_REMAP => self.await_next(Awaited::Remap),
            commands::SET_START_LINE => self.await_next(Awaited::StartLine),
            commands::SET_OFFSET => self.await_next(Awaited::Offset),
            commands::SET_MUX => self.await_next(Awaited::Mux),
            commands::SLEEP => self.awake = false,
            commands::WAKE => self.awake = true,
            commands::NOTHING => {}
            _ => self.go_astray(),
        }
    }

    // A command byte: the next operand if one is awaited, otherwise an opcode.
    fn command(&mut self, b: u8)
        ensures { chip self.new ≡ command_met (chip self.old) self.old.awaited b }
    {
        match self.awaited {
            Awaited::Opcode => return self.opcode(b),
            Awaited::FirstColumn => return self.await_next(Awaited::LastColumn(b)),
            Awaited::FirstLine => return self.await_next(Awaited::LastLine(b)),
            Awaited::LastColumn(first) if first <= b && b <= 63 => self.window.columns =
                Pointer::new(first, b),
            Awaited::LastLine(first) if first <= b && b <= 127 => self.window.lines = Pointer::new(
                first, b,
            ),
            Awaited::Remap if b & remap::UNUSED == 0 => self.registers.remap = b,
            Awaited::StartLine if b <= 127 => self.registers.start = b,
            Awaited::Offset if b <= 127 => self.registers.offset = b,
            Awaited::Mux if 15 <= b && b <= 127 => self.registers.mux = b,
            _ => return self.go_astray(),
        }
        // the last operand has come
        self.awaited = Awaited::Opcode;
    }

    // A data byte is held; an awaited operand it is not.
    fn hold(&mut self, b: u8)
        ensures { chip self.new ≡ data_met (chip self.old) self.old.awaited b }
    {
        match self.awaited {
            Awaited::Opcode => self.held = Some(b),
            _ => self.go_astray(),
        }
    }

    // A transfer, by the rules in their order: a held byte is stored first.
    #[tactic(auto, unfolding(crate::specs::Chip::step))]
    pub fn step(&mut self, t: Transfer)
        ensures stepped { chip self.new ≡ step (chip self.old) t }
    {
        if self.astray {
            return;
        }
        self.store_held();
        match t {
            Transfer::Command(b) => self.command(b),
            Transfer::Data(b) => self.hold(b),
        }
    }
}
