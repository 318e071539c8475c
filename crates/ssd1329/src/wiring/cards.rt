// Making a wiring.
ghost use Rattle.std.specs.Prelude.{◌≡◌, is_ok, MatchResult, nat_le};
ghost use Rattle.refusal.specs.declared.refusals.Refusal.TheVariants.{Shift};
ghost use Rattle.ssd1329.specs.Meaning.{wires};
ghost use Rattle.ssd1329.specs.Glass.{card, unmarked};

use super::Wiring;
use refusal::Refusal;

impl Wiring {
    // The wiring of a card, by its four entries; a shift above 127 is refused.
    pub fn new(mirrored: bool, flipped: bool, comb: bool, shift: u8) -> Result<Wiring, Refusal>
        ensures judged { is_ok result ≡ nat_le shift 127 }
        ensures made { MatchResult result (λ w. wires w ≡ card mirrored flipped comb shift) (λ e. e ≡ Shift) }
    {
        if shift > 127 {
            return Err(Refusal::Shift);
        }
        Ok(Wiring {
            mirrored,
            flipped,
            comb,
            shift,
        })
    }

    // A card without marks, shift 0.
    pub fn plain() -> Wiring
        ensures { wires result ≡ unmarked }
    {
        Wiring {
            mirrored: false,
            flipped: false,
            comb: false,
            shift: 0,
        }
    }
}
