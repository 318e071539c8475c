// One dot.
ghost use Rattle.std.specs.Prelude.{◌<◌, ◌≤◌};
ghost use Rattle.drawing.specs.Dots.{Put};

use super::{Canvas, Dot};

impl Canvas {
    // Gives a dot a gray. Its byte becomes due only if that changes the dot.
    pub(crate) fn put(&mut self, dot: Dot, gray: u8)
        requires { gray ≤ 15 }
        ensures { Put self.old dot.x dot.y gray self.new }
    {
        let i = dot.y * 64 + dot.x / 2;
        let old = self.cells[i];
        let new = if dot.x % 2 == 0 {
            old / 16 * 16 + gray
        } else {
            gray * 16 + old % 16
        };
        if new != old {
            self.cells[i] = new;
            self.due[dot.y] |= 1 << (dot.x / 2);
        }
    }
}
