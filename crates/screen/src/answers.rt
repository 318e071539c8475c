// What a flush answers.
ghost use Rattle.std.specs.Prelude.{◌≡◌};
ghost use Rattle.screen.specs.declared.answers.FlushFault.TheVariants.{Refused};

use refusal::Refusal;

// A byte of the canvas.
#[derive(Clone, Copy, PartialEq, Eq, Debug)]
pub struct Place {
    pub line: u8,
    pub column: u8,
}

// What a flush had no room for.
#[derive(Clone, Copy, PartialEq, Eq, Debug)]
pub struct LeftOver {
    // how many transfers it sent
    pub count: u32,
    // how many bytes are still due, and the first of them; none if only a setting is left
    pub due: u32,
    pub first: Option<Place>,
}

#[derive(Clone, Copy, PartialEq, Eq, Debug)]
pub enum FlushFault {
    // nothing was sent
    Refused(Refusal),
    // something is left to send
    LeftOver(LeftOver),
}

// A refused flush is a refusal by `?`.
impl From<Refusal> for FlushFault {
    ghost from_gives = { λ refusal fault. fault ≡ Refused refusal };

    fn from(refusal: Refusal) -> FlushFault {
        FlushFault::Refused(refusal)
    }
}
