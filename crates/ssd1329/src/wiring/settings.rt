// The settings that a wiring needs.
ghost use Rattle.std.specs.Prelude.{◌≡◌};
ghost use Rattle.ssd1329.specs.Meaning.{wires};
ghost use Rattle.ssd1329.specs.Wiring.{settings_for};

use super::Wiring;
use crate::remap::{COLUMNS_REVERSED, COMMONS_REVERSED, COMMONS_SPLIT, HALVES_SWAPPED};

// Columns from the right, and so the halves of a byte exchanged.
const MIRRORED: u8 = COLUMNS_REVERSED | HALVES_SWAPPED;

impl Wiring {
    // The re-map byte under which the glass shows the memory upright.
    pub fn remap(&self) -> u8
        ensures { result ≡ (settings_for (wires self.now)).remap }
    {
        let mirrored = if self.mirrored { MIRRORED } else { 0 };
        let flipped = if self.flipped { COMMONS_REVERSED } else { 0 };
        let comb = if self.comb { COMMONS_SPLIT } else { 0 };
        mirrored | flipped | comb
    }

    // The offset that takes back the shift.
    pub fn offset(&self) -> u8
        ensures { result ≡ (settings_for (wires self.now)).offset }
    {
        if self.flipped {
            self.shift
        } else {
            (128 - self.shift) % 128
        }
    }
}
