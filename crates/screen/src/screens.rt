// The parts of a screen.
mod calls;
mod life;

use drawing::Canvas;
use link::Link;
use ssd1329::Wiring;

// The settings that the wiring needs and the controller lacks.
#[derive(Clone, Copy)]
pub(crate) struct Owed {
    pub(crate) remap: bool,
    pub(crate) offset: bool,
}

// It owns its link: while the screen lives, nobody else sends on it.
#[derive(Drop)]
pub struct Screen<L: Link> {
    pub(crate) wiring: Wiring,
    pub(crate) link: L,
    pub(crate) canvas: Canvas,
    // some flush has left nothing to send, and woken the controller
    pub(crate) lit: bool,
    pub(crate) owed: Owed,
}
