// The drawing calls of a screen, each with a pen, in the plain numbers of the canvas. They leave the link alone.
ghost use Rattle.std.specs.Prelude.{◌≡◌, ◌&&◌, if◌then◌else◌, Ok, Err, nat_lt};
ghost use Rattle.refusal.specs.declared.refusals.Refusal.TheVariants.{Position};
ghost use Rattle.drawing.specs.Book.{dots, bars, places};
ghost use Rattle.drawing.specs.Dots.{gray};
ghost use Rattle.drawing.specs.Drawing.{DotStep, BarStep, PlaceStep};
ghost use Rattle.drawing.specs.Pens.{pen_means};
ghost use Rattle.screen.specs.Screens.{OnlyCanvas, DrawnByTheBook};

use super::Screen;
use drawing::Pen;
use link::Link;
use picture::Picture;
use refusal::Refusal;

impl<L: Link> Screen<L> {
    // Gives the ink to one dot.
    pub fn dot(&mut self, pen: &Pen, x: i32, y: i32) -> Result<(), Refusal>
        ensures painted { DotStep (pen_means pen.now) x y self.old.canvas result self.new.canvas }
        ensures book { DrawnByTheBook (dots x y) (pen_means pen.now) self.old self.new }
        ensures else_same { OnlyCanvas self.old self.new }
    {
        self.canvas.dot(pen, x, y)
    }

    // Gives the ink to w by h dots from (x, y).
    pub fn bar(&mut self, pen: &Pen, x: i32, y: i32, w: u32, h: u32) -> Result<(), Refusal>
        ensures painted { BarStep (pen_means pen.now) x y w h self.old.canvas result self.new.canvas }
        ensures book { DrawnByTheBook (bars x y w h) (pen_means pen.now) self.old self.new }
        ensures else_same { OnlyCanvas self.old self.new }
    {
        self.canvas.bar(pen, x, y, w, h)
    }

    // Gives a picture's grays, its corner at (x, y).
    pub fn place<P: Picture>(
        &mut self,
        pen: &Pen,
        picture: &P,
        x: i32,
        y: i32,
    ) -> Result<(), Refusal>
        ensures painted { PlaceStep (pen_means pen.now) (P.Picture.means picture.now) x y self.old.canvas result self.new.canvas }
        ensures book { DrawnByTheBook (places (P.Picture.means picture.now) x y) (pen_means pen.now) self.old self.new }
        ensures else_same { OnlyCanvas self.old self.new }
    {
        self.canvas.place(pen, picture, x, y)
    }

    // The gray that is drawn at (x, y); a position above 127 is refused.
    pub fn gray(&self, x: u32, y: u32) -> Result<u8, Refusal>
        ensures { result ≡ (if nat_lt x 128 && nat_lt y 128 then Ok (gray self.now.canvas x y) else Err Position) }
    {
        self.canvas.gray(x, y)
    }
}
