// One record more.
ghost use Rattle.std.specs.Prelude.{◌≡◌, ◌+◌, ◌≤◌, true, [], ◌∷◌, ◌++◌, vec_len};
ghost use Rattle.listing.specs.Listing.{allowed, slot_then, wide};
ghost use Rattle.link.specs.Listed.{records_of};
ghost use Rattle.link.specs.Space.{capacity, reserve, weight};

use super::ListingLink;
use listing::{Record, write_record};

impl ListingLink {
    // Lists a record; `slot` and `taken` are what the text then says.
    pub(super) fn list(&mut self, r: Record, slot: Option<u32>, taken: u32)
        requires lawful { allowed self.old.slot r ≡ true }
        requires stands { slot ≡ slot_then self.old.slot r }
        requires counted { taken ≡ self.old.taken + weight r }
        requires inside { self.old.used + wide r + reserve slot ≤ capacity (vec_len self.old.buffer) }
        ensures listed { records_of self.new ≡ records_of self.old ++ r ∷ [] }
        ensures longer { self.new.used ≡ self.old.used + wide r }
        ensures size { vec_len self.new.buffer ≡ vec_len self.old.buffer }
    {
        self.used = write_record(self.buffer.as_mut_slice(), self.used, r).unwrap();
        self.slot = slot;
        self.taken = taken;
    }
}
