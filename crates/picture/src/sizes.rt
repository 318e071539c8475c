// A picture's width and height.
ghost use Rattle.std.specs.Prelude.{◌≡◌, ◌&&◌, ◌↔◌, nat_lt, IsTrue, IfSome, IsSome, if◌then◌else◌, Ok, Err};
ghost use Rattle.refusal.specs.declared.refusals.Refusal.TheVariants.{OutsidePicture};
ghost use Rattle.picture.specs.Pictures.{Extent};
ghost use Rattle.picture.specs.Packed.{sized};

use refusal::Refusal;

// A width and a height that a picture may have.
#[derive(Clone, Copy)]
pub struct Size {
    pub(crate) width: u32,
    pub(crate) height: u32,
    ghost across: { Extent width },
    ghost down: { Extent height },
}

impl Size {
    // None where the width or the height is outside 1 to 128.
    pub(crate) fn new(width: u32, height: u32) -> Option<Size>
        ensures some { IsSome result ↔ IsTrue (sized width && sized height) }
        ensures size { IfSome result (λ size. (size.width ≡ width) × (size.height ≡ height)) }
    {
        if (1..=128).contains(&width) && (1..=128).contains(&height) {
            Some(Size { width, height })
        } else {
            None
        }
    }

    // Refuses a place that a picture of this size has not.
    pub(crate) fn check_place(self, x: u32, y: u32) -> Result<(), Refusal>
        ensures { result ≡ (if nat_lt x self.width && nat_lt y self.height then Ok tt else Err OutsidePicture) }
    {
        if x < self.width && y < self.height {
            Ok(())
        } else {
            Err(Refusal::OutsidePicture)
        }
    }
}
