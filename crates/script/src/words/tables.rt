// What each word stands for.
ghost use Rattle.std.specs.Prelude.{◌≡◌};
ghost use Rattle.script.specs.Words.{verb, kind, marked, marks};

use super::{Kind, Marks, Verb};
use crate::field::Field;

impl Field for Verb {
    ghost says = { verb };

    fn read(word: &[u8]) -> Option<Verb> {
        match word {
            b"ink" => Some(Verb::Ink),
            b"dot" => Some(Verb::Dot),
            b"bar" => Some(Verb::Bar),
            b"place" => Some(Verb::Place),
            b"narrow" => Some(Verb::Narrow),
            b"end" => Some(Verb::End),
            b"flush" => Some(Verb::Flush),
            _ => None,
        }
    }
}

impl Field for Kind {
    ghost says = { kind };

    fn read(word: &[u8]) -> Option<Kind> {
        match word {
            b"bits" => Some(Kind::Bits),
            b"grays" => Some(Kind::Grays),
            b"inverse" => Some(Kind::Inverse),
            b"crop" => Some(Kind::Crop),
            _ => None,
        }
    }
}

fn marked(mirrored: bool, flipped: bool, comb: bool) -> Marks
    ensures { result ≡ marked mirrored flipped comb }
{
    Marks {
        mirrored,
        flipped,
        comb,
    }
}

// Letters of `mfc`, in this order, or `-`.
impl Field for Marks {
    ghost says = { marks };

    fn read(word: &[u8]) -> Option<Marks> {
        match word {
            b"-" => Some(marked(false, false, false)),
            b"m" => Some(marked(true, false, false)),
            b"f" => Some(marked(false, true, false)),
            b"c" => Some(marked(false, false, true)),
            b"mf" => Some(marked(true, true, false)),
            b"mc" => Some(marked(true, false, true)),
            b"fc" => Some(marked(false, true, true)),
            b"mfc" => Some(marked(true, true, true)),
            _ => None,
        }
    }
}
