// One of two kinds of pictures.
ghost use Rattle.picture.specs.Lawfulness.{either_lawful};
ghost use Rattle.picture.specs.Kinds.{either_means};

use crate::pictures::Picture;
use either::{Either, for_both};
use refusal::Refusal;

impl<P: Picture, Q: Picture> Picture for Either<P, Q> {
    ghost means = { λ e. either_means P.Picture Q.Picture e };

    ghost lawful = { λ e. either_lawful P.Picture Q.Picture e };

    fn width(&self) -> u32 {
        for_both!(self, picture => picture.width())
    }

    fn height(&self) -> u32 {
        for_both!(self, picture => picture.height())
    }

    fn dot(&self, x: u32, y: u32) -> Result<Option<u8>, Refusal> {
        for_both!(self, picture => picture.dot(x, y))
    }
}
