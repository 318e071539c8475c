// The part of the canvas that a pen may draw on.
use crate::span::Span;

// Left to right, and top to bottom; right and bottom are excluded. Its spans keep 0 ≤ left ≤ right ≤ 128,
// and the same from top to bottom, so drawing needs no test.
#[derive(Clone, Copy)]
pub struct Clip {
    pub(crate) across: Span,
    pub(crate) down: Span,
}
