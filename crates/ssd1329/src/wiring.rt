// How a module is wired: the card that comes with it.
ghost use Rattle.std.specs.Prelude.{◌≤◌};

mod cards;
mod pins;
mod settings;

// A wiring has four entries.
#[derive(Clone, Copy)]
pub struct Wiring {
    // the segments run from right to left
    mirrored: bool,
    // the places run from bottom to top
    flipped: bool,
    // even places are on the first 64 pins, odd ones on the last 64
    comb: bool,
    // by how many places the glass is moved against the pins
    shift: u8,
    ghost within: { shift ≤ 127 },
}
