// A script, and why a text is none.
ghost use Rattle.std.specs.Prelude.{◌≡◌};

use crate::figures::Figure;
use crate::numbers::as_byte;
use refusal::Refusal;
use screen::Call;
use ssd1329::Wiring;
use std::alloc::AllocFailed;
use std::error::Error;
use std::fmt;

// The card of a module, as it is written; its shift is not judged yet. Callers read its marks one by one.
#[derive(Clone, Copy, PartialEq, Eq, Debug)]
pub struct Card {
    pub mirrored: bool,
    pub flipped: bool,
    pub comb: bool,
    pub shift: u32,
}

// The wiring that the card asks for; a shift above 127 is refused.
impl TryFrom<Card> for Wiring {
    ghost use Rattle.script.specs.Wirings.{Wires};

    type Error = Refusal;

    ghost try_from_gives = { Wires };

    fn try_from(card: Card) -> Result<Wiring, Refusal> {
        Wiring::new(card.mirrored, card.flipped, card.comb, as_byte(card.shift))
    }
}

// A call to be made; or why its picture cannot be made, and then there is none.
pub type Line = Result<Call<Figure>, Refusal>;

#[derive(Drop)]
pub struct Script {
    pub card: Card,
    // how many bytes the listing may take
    pub buffer: u32,
    pub lines: Vec<Line>,
}

#[derive(Clone, Copy, PartialEq, Eq, Debug)]
pub enum Unread {
    // the number of the first line that cannot be read, from 1
    BadLine(u32),
    NoMemory,
}

impl<T: Drop> From<AllocFailed<T>> for Unread {
    ghost use Rattle.script.specs.declared.script.Unread.TheVariants.{NoMemory};

    ghost from_gives = { λ _ unread. unread ≡ NoMemory };

    fn from(_failed: AllocFailed<T>) -> Unread {
        Unread::NoMemory
    }
}

impl fmt::Display for Unread {
    fn fmt<W: fmt::Write>(&self, f: &mut fmt::Formatter<W>) -> fmt::Result {
        match self {
            Self::BadLine(number) => write!(f, "line {number} cannot be read"),
            Self::NoMemory => write!(f, "no memory for the script"),
        }
    }
}

impl Error for Unread {}
