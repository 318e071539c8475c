// A fresh pen, and its ink.
ghost use Rattle.std.specs.Prelude.{◌≡◌};
ghost use Rattle.drawing.specs.Book.{inks, PenByTheBook};
ghost use Rattle.drawing.specs.Pens.{pen_means, fresh_pen, InkStep};

use super::{Pen, Setting};
use crate::clip::Clip;
use crate::span::Span;
use refusal::Refusal;

impl Pen {
    // Ink 15, and the whole canvas as clip.
    pub fn new() -> Pen
        ensures { pen_means result ≡ fresh_pen }
    {
        Pen {
            setting: Setting {
                ink: 15,
                clip: Clip {
                    across: Span::ALL,
                    down: Span::ALL,
                },
            },
        }
    }

    // Sets the ink; a gray above 15 is refused.
    pub fn ink(&mut self, gray: u8) -> Result<(), Refusal>
        ensures inked { InkStep (pen_means self.old) gray result (pen_means self.new) }
        ensures book { PenByTheBook (inks gray) (pen_means self.old) (pen_means self.new) }
    {
        if gray > 15 {
            return Err(Refusal::Gray);
        }
        self.setting.ink = gray;
        Ok(())
    }
}
