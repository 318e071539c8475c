// What we promise of the first flush of a screen, on a function's contract.
ghost use Rattle.screen.specs.FirstFlush.{FirstFlushIsShort};

// However a screen is wired, and whatever its link grants: its first flush sends at most one frame under one window.
pub fn first_flush_is_short() -> u8
    ensures { FirstFlushIsShort }
{
    0
}
