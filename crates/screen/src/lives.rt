// What we promise of every life of a screen, on a function's contract.
ghost use Rattle.screen.specs.Lives.{EveryLifeIsFaithful};

// However a screen is wired, and whatever it is called for: its glass is faithful to what was drawn.
pub fn every_life_is_faithful() -> u8
    ensures { EveryLifeIsFaithful }
{
    0
}
