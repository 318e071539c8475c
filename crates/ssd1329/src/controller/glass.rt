// What the glass shows.
ghost use Rattle.std.specs.Prelude.{◌≡◌};
ghost use Rattle.ssd1329.specs.Meaning.{chip, settings, wires};
ghost use Rattle.ssd1329.specs.Remap.{has};
ghost use Rattle.ssd1329.specs.Glass.{common_on, row_of, cell, glass, glass_answer, shown};

use super::{Controller, Registers};
use crate::below::{Below, Gray, Position};
use crate::remap;
use crate::shows::Shows;
use crate::wiring::Wiring;
use refusal::Refusal;

impl Registers {
    // Whether a bit of the re-map byte is set.
    pub(super) fn has(&self, bit: u8) -> bool
        ensures { result ≡ has self.now.remap bit }
    {
        self.remap & bit != 0
    }

    // The common that a pin carries.
    fn common(&self, pin: Position) -> Position
        ensures { result ≡ common_on (settings self.now) pin }
    {
        if !self.has(remap::COMMONS_SPLIT) {
            pin
        } else if pin.0 < 64 {
            Below(2 * pin.0)
        } else {
            Below(2 * (pin.0 - 64) + 1)
        }
    }

    // The row that a common scans.
    fn row(&self, common: Position) -> Position
        ensures { result ≡ row_of (settings self.now) common }
    {
        if !self.has(remap::COMMONS_REVERSED) {
            Below((common.0 + self.offset) % 128)
        } else {
            Below(((self.mux + self.offset) % 128 + 128 - common.0) % 128)
        }
    }
}

impl Controller {
    pub fn shows(&self) -> Shows
        ensures { result ≡ shown (chip self.now) }
    {
        if self.astray {
            Shows::Astray
        } else if self.awake {
            Shows::Lit
        } else {
            Shows::Dark
        }
    }

    // What a segment shows in a row.
    fn cell(&self, segment: Position, row: Position) -> Gray
        ensures { result ≡ cell (chip self.now) segment row }
    {
        if row.0 > self.registers.mux {
            return Below(0);
        }
        let line = (row.0 + self.registers.start) % 128;
        let column = if !self.registers.has(remap::COLUMNS_REVERSED) {
            segment.0 / 2
        } else {
            63 - segment.0 / 2
        };
        let byte = self.memory[usize::from(line) * 64 + usize::from(column)];
        if segment.0 % 2 == 0 {
            Below(byte % 16)
        } else {
            Below(byte / 16)
        }
    }

    #[tactic(auto, unfolding(crate::specs::Glass::glass))]
    pub(super) fn gray(&self, wiring: &Wiring, x: Position, y: Position) -> Gray
        ensures { result ≡ glass (wires wiring.now) (chip self.now) x y }
    {
        if self.astray || !self.awake {
            return Below(0);
        }
        let common = self.registers.common(wiring.pin(y));
        self.cell(wiring.segment(x), self.registers.row(common))
    }

    // The gray of a dot, counted from the top left; a position above 127 is refused.
    pub fn dot(&self, wiring: &Wiring, x: u32, y: u32) -> Result<u8, Refusal>
        ensures { result ≡ glass_answer (wires wiring.now) (chip self.now) x y }
    {
        let x = Position::try_from(x)?;
        let y = Position::try_from(y)?;
        Ok(self.gray(wiring, x, y).0)
    }
}
