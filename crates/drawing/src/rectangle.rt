// A rectangle that a caller names, and what of it lies on the canvas.
ghost use Rattle.std.specs.Prelude.{◌≡◌, ◌≤◌, ◌==◌, pos, ◌+ℤ◌};
ghost use Rattle.drawing.specs.Clips.{clamp, area, covered, common, empty, joint, span_side, Boxed};

use crate::clip::Clip;
use crate::corner::{Corner, Reach};
use crate::span::Span;
use refusal::Refusal;

// Made of a position and a size that were judged.
#[derive(Clone, Copy)]
pub struct Rectangle {
    pub(crate) part: Clip,
}

// A number brought into 0 to 128.
fn clamp(z: i32) -> u8
    ensures value { result ≡ clamp z }
    ensures bound { result ≤ 128 }
{
    z.clamp(0, 128) as u8
}

impl Span {
    // What of `len` places from a position on lies within 0 to 127.
    fn of(from: Reach, len: u32) -> Span
        requires { len ≤ 255 }
        ensures { (result.from ≡ clamp from.at) × (result.to ≡ clamp (from.at +ℤ pos len)) }
    {
        Span {
            from: clamp(from.at),
            to: clamp(from.at + len as i32),
        }
    }

    fn is_empty(self) -> bool
        ensures { result ≡ empty (span_side self) }
    {
        self.from == self.to
    }

    // The places of both, 0 to before 0 if there are none.
    fn common(self, other: Span) -> Span
        ensures { span_side result ≡ joint (span_side self) (span_side other) }
    {
        let from = self.from.max(other.from);
        let to = self.to.min(other.to);
        if from < to {
            Span { from, to }
        } else {
            Span::NONE
        }
    }
}

impl Rectangle {
    // The rectangle of w by h dots from (x, y). It checks the position first, then the size.
    pub fn new(x: i32, y: i32, w: u32, h: u32) -> Result<Rectangle, Refusal>
        ensures { Boxed x y w h result }
    {
        let corner = Corner::new(x, y)?;
        if w > 255 || h > 255 {
            return Err(Refusal::Size);
        }
        Ok(Rectangle::at(corner, w, h))
    }

    // The same of a corner, for a size that needs no test.
    pub(crate) fn at(corner: Corner, w: u32, h: u32) -> Rectangle
        requires { (w ≤ 255) × (h ≤ 255) }
        ensures { area result.part ≡ covered corner.x.at corner.y.at w h }
    {
        Rectangle {
            part: Clip {
                across: Span::of(corner.x, w),
                down: Span::of(corner.y, h),
            },
        }
    }
}

impl Clip {
    // What the clip and a rectangle have in common; 0, 0, 0, 0 where that is nothing.
    pub(crate) fn common(self, rectangle: Rectangle) -> Clip
        ensures { area result ≡ common (area self) (area rectangle.part) }
    {
        let across = self.across.common(rectangle.part.across);
        let down = self.down.common(rectangle.part.down);
        if across.is_empty() || down.is_empty() {
            Clip {
                across: Span::NONE,
                down: Span::NONE,
            }
        } else {
            Clip { across, down }
        }
    }
}
