// Transfers in a slot that has enough left for them.
ghost use Rattle.std.specs.Prelude.{◌≡◌, ℕ, ◌<◌, ◌≤◌, [], ◌∷◌, map, length};
ghost use Rattle.screen.specs.Slots.{Sends};

use crate::slots::Slot;
use link::Link;
use ssd1329::Transfer;

impl<L: Link> Slot<'_, L> {
    // Sends one transfer.
    pub(crate) fn send(&mut self, transfer: Transfer)
        requires { 0 < self.old.left }
        ensures { Sends L.Link self.old (transfer ∷ []) self.new }
    {
        self.link.send(transfer).unwrap();
        self.left -= 1;
    }

    // Sends each byte, as the transfer that `of` makes of it.
    pub(crate) fn send_each<F: Fn(u8) -> Transfer>(&mut self, bytes: &[u8], of: F)
        requires callable { F.IsAlwaysCallable of }
        requires fits { length bytes.now ≤ self.old.left }
        ensures { (transfer : ℕ → Transfer) → ((b : ℕ) (t : Transfer) → F.post of b t → t ≡ transfer b)
            → Sends L.Link self.old (map transfer bytes.now) self.new }
    {
        for byte in bytes {
            self.send(of(*byte));
        }
    }
}
