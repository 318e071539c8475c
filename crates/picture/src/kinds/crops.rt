// Parts of pictures.
ghost use Rattle.std.specs.Prelude.{◌≡◌};
ghost use Rattle.picture.specs.Lawfulness.{crop_lawful};
ghost use Rattle.picture.specs.Kinds.{crop_means, CropMade};

use crate::kinds::Crop;
use crate::pictures::Picture;
use crate::sizes::Size;
use refusal::{HandedBack, Refusal};

impl<P: Picture> Crop<P> {
    // The part of a picture from (left, top) on, which is not empty and lies wholly inside it.
    pub fn new(
        inner: P,
        left: u32,
        top: u32,
        width: u32,
        height: u32,
    ) -> Result<Crop<P>, HandedBack<P>>
        ensures { CropMade P.Picture inner left top width height result }
    {
        let wide = inner.width();
        let high = inner.height();
        match Size::new(width, height) {
            Some(size)
                if left <= wide && width <= wide - left && top <= high && height <= high - top => {
                Ok(Crop {
                    inner,
                    left,
                    top,
                    size,
                })
            }
            _ => Err(HandedBack {
                refusal: Refusal::CropOutside,
                value: inner,
            }),
        }
    }

    // The picture that this is a part of.
    pub fn into_inner(self) -> P
        ensures { result ≡ self.inner }
    {
        self.inner
    }
}

impl<P: Picture> Picture for Crop<P> {
    ghost means = { λ c. crop_means P.Picture c };

    ghost lawful = { λ c. crop_lawful P.Picture c };

    fn width(&self) -> u32 {
        self.size.width
    }

    fn height(&self) -> u32 {
        self.size.height
    }

    fn dot(&self, x: u32, y: u32) -> Result<Option<u8>, Refusal> {
        self.size.check_place(x, y)?;
        // never refused of a crop that lies inside
        Ok(self.inner.dot(self.left + x, self.top + y).unwrap_or(None))
    }
}
