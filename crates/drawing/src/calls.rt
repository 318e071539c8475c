// The drawing calls on a canvas. They take plain numbers, as callers have them; inside those are a corner and a rectangle.
ghost use Rattle.std.specs.Prelude.{◌≤◌};
ghost use Rattle.drawing.specs.Book.{bars, dots, places, ByTheBook};
ghost use Rattle.drawing.specs.Drawing.{DotStep, BarStep, PlaceStep};
ghost use Rattle.drawing.specs.Pens.{pen_means};
ghost use Rattle.drawing.specs.Solids.{solid, solid_lawful};

use crate::canvas::Canvas;
use crate::corner::Corner;
use crate::pen::Pen;
use crate::rectangle::Rectangle;
use picture::Picture;
use refusal::Refusal;

// One gray everywhere.
#[derive(Clone, Copy)]
struct Solid {
    gray: u8,
    ghost shade: { gray ≤ 15 },
}

impl Picture for Solid {
    ghost means = { λ s. solid s.gray };

    ghost lawful = { λ s. solid_lawful s.gray };

    fn width(&self) -> u32 {
        128
    }

    fn height(&self) -> u32 {
        128
    }

    fn dot(&self, x: u32, y: u32) -> Result<Option<u8>, Refusal> {
        if x < 128 && y < 128 {
            Ok(Some(self.gray))
        } else {
            Err(Refusal::OutsidePicture)
        }
    }
}

impl Canvas {
    // Gives the ink to w by h dots from (x, y), within the pen's clip. It checks the position first, then the size.
    pub fn bar(&mut self, pen: &Pen, x: i32, y: i32, w: u32, h: u32) -> Result<(), Refusal>
        ensures painted { BarStep (pen_means pen.now) x y w h self.old result self.new }
        ensures book { ByTheBook (bars x y w h) (pen_means pen.now) self.old self.new }
    {
        let rectangle = Rectangle::new(x, y, w, h)?;
        let part = pen.setting.clip.common(rectangle);
        let ink = Solid {
            gray: pen.setting.ink,
        };
        self.fill(part, &ink, Corner::ORIGIN);
        Ok(())
    }

    // Gives the ink to one dot.
    pub fn dot(&mut self, pen: &Pen, x: i32, y: i32) -> Result<(), Refusal>
        ensures painted { DotStep (pen_means pen.now) x y self.old result self.new }
        ensures book { ByTheBook (dots x y) (pen_means pen.now) self.old self.new }
    {
        self.bar(pen, x, y, 1, 1)
    }

    // Gives a picture's grays, its corner at (x, y); its clear dots keep what is there.
    pub fn place<P: Picture>(
        &mut self,
        pen: &Pen,
        picture: &P,
        x: i32,
        y: i32,
    ) -> Result<(), Refusal>
        ensures painted { PlaceStep (pen_means pen.now) (P.means picture.now) x y self.old result self.new }
        ensures book { ByTheBook (places (P.means picture.now) x y) (pen_means pen.now) self.old self.new }
    {
        let corner = Corner::new(x, y)?;
        let rectangle = Rectangle::at(corner, picture.width(), picture.height());
        let part = pen.setting.clip.common(rectangle);
        self.fill(part, picture, corner);
        Ok(())
    }
}
