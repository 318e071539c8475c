// Theorems over links.
ghost use Rattle.link.specs.Lives.{SameCalls, ListedWasSent};

// The same calls with the same grants give the same controller on every link.
pub fn same_calls_give_the_same_controller() -> u8
    ensures { SameCalls }
{
    0
}

// What a listing link has listed is what was sent on it.
pub fn what_is_listed_was_sent() -> u8
    ensures { ListedWasSent }
{
    0
}
