// The canvas.
ghost use Rattle.std.specs.Prelude.{◌<◌};

mod fresh;
mod looks;
mod put;

// 128 lines of 128 grays. Byte k of line y holds dots 2 × k, in its low half, and 2 × k + 1, in its high half.
// A byte is due when it differs, or may differ, from what the module's memory holds; each line has one word of
// marks, and bit k of it is set when byte k is due.
#[derive(Drop)]
pub struct Canvas {
    pub cells: [u8; 8192],
    pub due: [u64; 128],
}

// Where a dot of the canvas is.
#[derive(Clone, Copy)]
pub(crate) struct Dot {
    pub(crate) x: usize,
    pub(crate) y: usize,
    ghost across: { x < 128 },
    ghost down: { y < 128 },
}
