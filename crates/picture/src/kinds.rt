// The kinds of pictures. Every value of each means a lawful picture (specs/Lawfulness.antt).
ghost use Rattle.std.specs.Prelude.{◌+◌, ◌≤◌};

use crate::packed::Layout;
use crate::sizes::Size;

pub mod bits;
pub mod crops;
pub mod eithers;
pub mod grays;
pub mod inverses;

// One bit a dot: 1 is the picture's gray, 0 is clear.
#[derive(Drop)]
pub struct BitPicture<B> {
    bytes: B,
    layout: Layout<1>,
    gray: u8,
    ghost shade: { gray ≤ 15 },
}

// Four bits a dot, each a gray.
#[derive(Drop)]
pub struct GrayPicture<B> {
    bytes: B,
    layout: Layout<4>,
}

// A part of a picture, from (left, top) on.
// That it lies inside its picture is shown where it is made; the type cannot say so without asking P to be a picture,
// also of callers who only name it. So a place that the picture has not would be clear.
#[derive(Drop)]
pub struct Crop<P> {
    inner: P,
    left: u32,
    top: u32,
    size: Size,
    ghost across: { left ≤ 127 },
    ghost down: { top ≤ 127 },
}

// A picture with each gray 15 less; clear stays clear.
#[derive(Drop)]
pub struct Inverse<P> {
    inner: P,
}
