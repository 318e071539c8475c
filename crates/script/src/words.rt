// The words of a script.

mod tables;

// What a line asks for.
#[derive(Clone, Copy)]
pub enum Verb {
    Ink,
    Dot,
    Bar,
    Place,
    Narrow,
    End,
    Flush,
}

// What a picture is made of.
#[derive(Clone, Copy)]
pub enum Kind {
    Bits,
    Grays,
    Inverse,
    Crop,
}

// The marks of a module's card.
#[derive(Clone, Copy)]
pub struct Marks {
    pub mirrored: bool,
    pub flipped: bool,
    pub comb: bool,
}
