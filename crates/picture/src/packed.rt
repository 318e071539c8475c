// Dots packed into bytes, DEPTH bits a dot, by the layout of specs/Packed.antt.
ghost use Rattle.std.specs.Prelude.{◌≡◌, ◌<◌, ◌≤◌, ◌&&◌, length, if◌then◌else◌, Some, None, Ok, Err, IfOk, IfErr, nat_lt};
ghost use Rattle.refusal.specs.declared.refusals.Refusal.TheVariants.{OutsidePicture};
ghost use Rattle.picture.specs.Packed.{places_a_byte, bytes_a_row, field, packed, shape_refusal};

use crate::sizes::Size;
use refusal::Refusal;

// How dots of DEPTH bits lie in bytes, row after row.
#[derive(Clone, Copy)]
pub(crate) struct Layout<const DEPTH: u32> {
    pub(crate) size: Size,
    ghost some: { 1 ≤ DEPTH },
    ghost most: { DEPTH < 8 },
}

impl<const DEPTH: u32> Layout<DEPTH> {
    // It checks the width and the height, and that there are just as many bytes as they take.
    pub(crate) fn new(bytes: &[u8], width: u32, height: u32) -> Result<Layout<DEPTH>, Refusal>
        requires { (1 ≤ DEPTH) × (DEPTH < 8) }
        ensures ok { IfOk result (λ layout. (shape_refusal DEPTH (length bytes.now) width height ≡ None)
            × (layout.size.width ≡ width) × (layout.size.height ≡ height)) }
        ensures err { IfErr result (λ refusal. shape_refusal DEPTH (length bytes.now) width height ≡ Some refusal) }
    {
        let size = Size::new(width, height).ok_or(Refusal::PictureShape)?;
        let layout = Layout { size };
        if bytes.len() == (layout.row_bytes() * size.height) as usize {
            Ok(layout)
        } else {
            Err(Refusal::PictureShape)
        }
    }

    // How many bytes a row takes, the last one filled up.
    fn row_bytes(&self) -> u32
        ensures value { result ≡ bytes_a_row DEPTH self.now.size.width }
        ensures small { result ≤ 135 }
    {
        let per_byte = 8 / DEPTH;
        (self.size.width + (per_byte - 1)) / per_byte
    }

    // The number in the bits of a byte's dot at `place`, counted from the highest bits.
    fn field(&self, byte: u8, place: u32) -> u8
        requires { place < places_a_byte DEPTH }
        ensures { result ≡ field DEPTH byte place }
    {
        (byte >> (8 - DEPTH * (place + 1))) % (1 << DEPTH)
    }

    // The number of the dot (x, y); past the last byte all numbers are 0.
    #[tactic(auto, unfolding(crate::specs::Packed::packed))]
    pub(crate) fn number(&self, bytes: &[u8], x: u32, y: u32) -> Result<u8, Refusal>
        ensures { result ≡ (if nat_lt x self.now.size.width && nat_lt y self.now.size.height
            then Ok (packed DEPTH bytes.now self.now.size.width x y) else Err OutsidePicture) }
    {
        self.size.check_place(x, y)?;
        let per_byte = 8 / DEPTH;
        let byte = bytes.get((y * self.row_bytes() + x / per_byte) as usize);
        Ok(self.field(byte.copied().unwrap_or(0), x % per_byte))
    }
}
