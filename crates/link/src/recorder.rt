// The listing link: writes what it is given as a listing.
ghost use Rattle.std.specs.Prelude.{◌≡◌, ◌+◌, ◌≤◌, true, take, None, vec_len};
ghost use Rattle.listing.specs.Listing.{text, fits, slot_after};
ghost use Rattle.listing.specs.ReadBack.{listed};
ghost use Rattle.link.specs.Space.{capacity, reserve, transfers};

pub mod calls;
mod life;
mod lists;

// The first `used` bytes of the buffer are a listing; `slot` and `taken` are what it says.
// The buffer is fixed memory that a caller gives and gets back whole, so its used part is a number beside it.
// An open slot keeps bytes in reserve for what is left of its grant, and for its close.
#[derive(Drop)]
pub struct ListingLink {
    buffer: Vec<u8>,
    used: usize,
    slot: Option<u32>,
    taken: u32,
    ghost inside: { used + reserve slot ≤ capacity (vec_len buffer) },
    ghost spelled: { take used buffer.items ≡ text (listed (take used buffer.items)) },
    ghost lawful: { fits None (listed (take used buffer.items)) ≡ true },
    ghost stands: { slot ≡ slot_after None (listed (take used buffer.items)) },
    ghost counted: { taken ≡ transfers (listed (take used buffer.items)) },
    ghost few: { taken ≤ used },
}
