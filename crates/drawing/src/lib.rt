// Drawing: a pen with its ink and clip, narrowed drawings, and a canvas that knows which of its bytes are due.
//
// docs/DRAWING.md has the rules in words, specs/ as definitions.
#![tactic(auto)]

mod calls;
mod canvas;
mod clip;
mod corner;
mod narrow;
mod paint;
mod pen;
mod rectangle;
mod span;
#[cfg(test)]
mod tests;

pub use canvas::Canvas;
pub use clip::Clip;
pub use narrow::Narrowed;
pub use pen::Pen;
pub use rectangle::Rectangle;
