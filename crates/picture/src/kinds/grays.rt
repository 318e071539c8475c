// Gray pictures.
ghost use Rattle.picture.specs.Lawfulness.{grays_lawful};
ghost use Rattle.picture.specs.Kinds.{grays_mean, GraysMade};

use crate::bytes::Bytes;
use crate::kinds::GrayPicture;
use crate::packed::Layout;
use crate::pictures::Picture;
use refusal::{HandedBack, Refusal};

impl<B: Bytes> GrayPicture<B> {
    // A picture with a gray for each place.
    pub fn new(bytes: B, width: u32, height: u32) -> Result<GrayPicture<B>, HandedBack<B>>
        ensures { GraysMade B.Bytes bytes width height result }
    {
        // Both answers take the bytes, which two closures could not.
        match Layout::new(bytes.all(), width, height) {
            Ok(layout) => Ok(GrayPicture { bytes, layout }),
            Err(refusal) => Err(HandedBack {
                refusal,
                value: bytes,
            }),
        }
    }
}

impl<B: Bytes> Picture for GrayPicture<B> {
    ghost means = { λ p. grays_mean B.Bytes p };

    ghost lawful = { λ p. grays_lawful B.Bytes p };

    fn width(&self) -> u32 {
        self.layout.size.width
    }

    fn height(&self) -> u32 {
        self.layout.size.height
    }

    fn dot(&self, x: u32, y: u32) -> Result<Option<u8>, Refusal> {
        let number = self.layout.number(self.bytes.all(), x, y)?;
        Ok(Some(number))
    }
}
