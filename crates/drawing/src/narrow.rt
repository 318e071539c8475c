// Narrowed drawings.
ghost use Rattle.std.specs.Prelude.{◌≡◌};
ghost use Rattle.drawing.specs.Book.{Narrowing, Ending};
ghost use Rattle.drawing.specs.Clips.{area};
ghost use Rattle.drawing.specs.Pens.{pen_means, setting_means, narrowed};

use crate::pen::{Pen, Setting};
use crate::rectangle::Rectangle;

// A narrowed drawing, over the one pen: while it lives only `pen` of it draws, and when it ends, by whatever way,
// the pen has its former ink and clip.
pub struct Narrowed<'a> {
    pub pen: &'a mut Pen,
    was: Setting,
}

impl Drop for Narrowed<'_> {
    fn drop(self)
        ensures { self.exit.0.now.setting ≡ self.entry.was }
    {
        let Narrowed { pen, was } = self;
        pen.setting = was;
    }
}

impl Pen {
    // Reduces the clip to what it has in common with the rectangle, until the answer ends.
    pub fn narrow(&mut self, rectangle: Rectangle) -> Narrowed<'_>
        ensures same { result.pen.ghost_name ≡ self.entry.ghost_name }
        ensures was { result.was ≡ self.old.setting }
        ensures narrows { pen_means result.pen.now ≡ narrowed (pen_means self.old) (area rectangle.part) }
        ensures book { Narrowing (area rectangle.part) (pen_means self.old) (pen_means result.pen.now) }
    {
        let was = self.setting;
        self.setting.clip = was.clip.common(rectangle);
        Narrowed { pen: self, was }
    }
}

impl Narrowed<'_> {
    // Ends the narrowed drawing here.
    pub fn end(self)
        ensures former { self.exit.0.now.setting ≡ self.entry.was }
        ensures book { Ending (setting_means self.entry.was) (pen_means self.exit.0.now) }
    {}
}
