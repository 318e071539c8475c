// A fresh canvas.
ghost use Rattle.std.specs.Prelude.{◌≡◌};
ghost use Rattle.drawing.specs.Dots.{fresh_canvas};

use super::Canvas;

impl Canvas {
    // Every gray 0, every byte due.
    pub fn new() -> Canvas
        ensures { result ≡ fresh_canvas }
    {
        Canvas {
            cells: [0; 8192],
            due: [u64::MAX; 128],
        }
    }
}
