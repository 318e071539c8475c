// An open slot of a link.
ghost use Rattle.std.specs.Prelude.{◌≤◌};
ghost use Rattle.link.specs.Links.{lefts};

use link::Link;

// A slot that is sent on, and how many transfers it is still used for. What sends at least one needs one that is left; a
// slot may also be used up.
#[derive(Drop)]
pub(crate) struct Slot<'a, L: Link> {
    pub(crate) link: &'a mut L,
    pub(crate) left: u32,
    ghost enough: { left ≤ lefts (L.means link.now).slot },
}
