// Numbers that are known to be small.
ghost use Rattle.std.specs.Prelude.{◌≡◌, ℕ, ◌<◌, ◌≤◌, MatchResult};
ghost use Rattle.refusal.specs.declared.refusals.Refusal.TheVariants.{Position as Outside};

use refusal::Refusal;
use std::marker::Model;

// A number below END.
#[derive(Clone, Copy)]
pub(crate) struct Below<const END: u8>(pub(crate) u8);

impl<const END: u8> Model for Below<END> {
    ghost Value = { ℕ };

    ghost view = { λ n. n.0 };

    ghost invariant = { λ n. n.0 < END };

    ghost inverse = { λ n. record { 0 = n } };
}

// Where something stands along a side of the glass: a dot, a segment, a pin, a common or a row.
pub(crate) type Position = Below<128>;

// How bright a dot is.
pub(crate) type Gray = Below<16>;

// A position above 127 is refused.
impl TryFrom<u32> for Position {
    type Error = Refusal;

    ghost try_from_gives = { λ n answer. MatchResult answer (λ p. p ≡ n) (λ e. (128 ≤ n) × (e ≡ Outside)) };

    fn try_from(n: u32) -> Result<Position, Refusal> {
        if n < 128 {
            Ok(Below(n as u8))
        } else {
            Err(Refusal::Position)
        }
    }
}
