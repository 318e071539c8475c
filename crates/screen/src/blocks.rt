// Due bytes that one window sends.
ghost use Rattle.marks.specs.Blocks.{block, Shaped};
ghost use Rattle.marks.specs.Blocks as meaning;

use std::marker::Model;

// Some bytes, side by side, of some lines, one below the other. It has a byte, and is all on the canvas.
#[derive(Drop)]
pub(crate) struct Block {
    pub(crate) line: u8,
    pub(crate) from: u8,
    pub(crate) size: u8,
    pub(crate) height: u8,
}

impl Model for Block {
    ghost Value = { meaning.Block };

    ghost view = { λ b. block b.line b.from b.size b.height };

    ghost invariant = { λ b. Shaped (block b.line b.from b.size b.height) };
}
