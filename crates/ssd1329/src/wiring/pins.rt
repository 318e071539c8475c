// From a dot to the segment and the pin that drive it.
ghost use Rattle.std.specs.Prelude.{◌≡◌};
ghost use Rattle.ssd1329.specs.Meaning.{wires};
ghost use Rattle.ssd1329.specs.Glass.{segment_of, place_of, pin_of};

use super::Wiring;
use crate::below::{Below, Position};

impl Wiring {
    pub(crate) fn segment(&self, x: Position) -> Position
        ensures { result ≡ segment_of (wires self.now) x }
    {
        if self.mirrored { Below(127 - x.0) } else { x }
    }

    fn place(&self, y: Position) -> Position
        ensures { result ≡ place_of (wires self.now) y }
    {
        let y = if self.flipped { 127 - y.0 } else { y.0 };
        Below((y + self.shift) % 128)
    }

    pub(crate) fn pin(&self, y: Position) -> Position
        ensures { result ≡ pin_of (wires self.now) y }
    {
        let place = self.place(y);
        if !self.comb {
            place
        } else if place.0 % 2 == 0 {
            Below(place.0 / 2)
        } else {
            Below(64 + place.0 / 2)
        }
    }
}
