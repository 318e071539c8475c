// A listing, read line by line.
ghost use Rattle.std.specs.Prelude.{◌≡◌, ◌<◌, ◌≤◌, true, length, take, None};
ghost use Rattle.listing.specs.Listing.{text as spelling, fits, slot_after};
ghost use Rattle.listing.specs.ReadBack.{listed};

mod next;

// What stands before `at` is a listing; `slot` is the slot after it, none if closed, else the transfers left.
// The place stays beside the text, since a bad line is told by where it begins in the whole text.
#[derive(Drop)]
pub struct Reader<'a> {
    text: &'a [u8],
    at: usize,
    slot: Option<u16>,
    ghost inside: { at ≤ length text.now },
    ghost spelled: { take at text.now ≡ spelling (listed (take at text.now)) },
    ghost lawful: { fits None (listed (take at text.now)) ≡ true },
    ghost stands: { slot ≡ slot_after None (listed (take at text.now)) },
}
