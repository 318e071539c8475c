// Bit pictures.
ghost use Rattle.picture.specs.Lawfulness.{bits_lawful};
ghost use Rattle.picture.specs.Kinds.{bits_mean, BitsMade};

use crate::bytes::Bytes;
use crate::kinds::BitPicture;
use crate::packed::Layout;
use crate::pictures::Picture;
use refusal::{HandedBack, Refusal};

impl<B: Bytes> BitPicture<B> {
    // A picture of one gray. It checks the shape first, then the gray.
    pub fn new(bytes: B, width: u32, height: u32, gray: u8) -> Result<BitPicture<B>, HandedBack<B>>
        ensures { BitsMade B.Bytes bytes width height gray result }
    {
        // Both answers take the bytes, which two closures could not.
        let refusal = match Layout::new(bytes.all(), width, height) {
            Ok(layout) if gray <= 15 => return Ok(BitPicture {
                bytes,
                layout,
                gray,
            }),
            Ok(_) => Refusal::Gray,
            Err(refusal) => refusal,
        };
        Err(HandedBack {
            refusal,
            value: bytes,
        })
    }
}

impl<B: Bytes> Picture for BitPicture<B> {
    ghost means = { λ p. bits_mean B.Bytes p };

    ghost lawful = { λ p. bits_lawful B.Bytes p };

    fn width(&self) -> u32 {
        self.layout.size.width
    }

    fn height(&self) -> u32 {
        self.layout.size.height
    }

    fn dot(&self, x: u32, y: u32) -> Result<Option<u8>, Refusal> {
        let number = self.layout.number(self.bytes.all(), x, y)?;
        Ok((number == 1).then_some(self.gray))
    }
}
