// What a caller draws with.
ghost use Rattle.std.specs.Prelude.{◌≤◌};

use crate::clip::Clip;

mod ink;

// An ink and a clip.
#[derive(Clone, Copy)]
pub(crate) struct Setting {
    pub(crate) ink: u8,
    pub(crate) clip: Clip,
    ghost gray: { ink ≤ 15 },
}

// A pen: the one record of its setting.
#[derive(Drop)]
pub struct Pen {
    pub(crate) setting: Setting,
}
