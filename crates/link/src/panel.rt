// The bench panel: the controller itself, with a number of transfers that it may take.
ghost use Rattle.std.specs.Prelude.{◌≡◌, ◌+◌, ◌≤◌, true, false, is_ok};
ghost use Rattle.ssd1329.specs.Fresh.{is_reset};
ghost use Rattle.link.specs.Links.{lefts};
ghost use Rattle.link.specs.Seats.{seat_chip};

pub mod calls;
mod life;
mod looks;

use ssd1329::Controller;

// It sits on a controller, or on memory that is none's.
#[derive(Drop)]
pub struct Panel {
    seat: Result<Controller, Vec<u8>>,
    slot: Option<u32>,
    room: u32,
    taken: u32,
    ghost counted: { room + taken ≤ 4294967295 },
    ghost within: { lefts slot ≤ room },
    ghost fresh: { taken ≡ 0 → is_reset (seat_chip seat) ≡ true },
    ghost idle: { is_ok seat ≡ false → room ≡ 0 },
}
