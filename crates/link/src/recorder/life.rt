// The beginning and the end of a listing link, and its text.
ghost use Rattle.std.specs.Prelude.{◌≡◌, [], length, if◌then◌else◌, None, Ok, Err, vec_len, nat_le};
ghost use Rattle.refusal.specs.declared.refusals.Refusal.TheVariants.{Memory};
ghost use Rattle.ssd1329.specs.Chip.{blank};
ghost use Rattle.listing.specs.Listing.{Lists};
ghost use Rattle.link.specs.Listed.{text_of, records_of, listing_meaning};
ghost use Rattle.link.specs.Panels.{fresh_link};
ghost use Rattle.link.specs.Space.{capacity, room_in};

use super::ListingLink;
use refusal::Refusal;

impl ListingLink {
    // Whether the buffer can be a listing's: it has at most 65,535 bytes.
    pub fn check(buffer: &[u8]) -> Result<(), Refusal>
        ensures { result ≡ (if nat_le (length buffer.now) 65535 then Ok tt else Err Memory) }
    {
        (buffer.len() <= 65535).then_some(()).ok_or(Refusal::Memory)
    }

    // A fresh link with an empty text, over a buffer that fails the check with room 0.
    pub fn new(buffer: Vec<u8>) -> ListingLink
        ensures means { listing_meaning result ≡ fresh_link blank (room_in None (capacity (vec_len buffer))) }
        ensures empty { records_of result ≡ [] }
        ensures keeps { result.buffer ≡ buffer }
    {
        ListingLink {
            buffer,
            used: 0,
            slot: None,
            taken: 0,
        }
    }

    // The text so far, which is a listing.
    pub fn text(&self) -> &[u8]
        ensures value { result.now ≡ text_of self.now }
        ensures lists { Lists result.now (records_of self.now) }
    {
        &self.buffer[..self.used]
    }

    // The buffer, as it is.
    pub fn into_buffer(self) -> Vec<u8>
        ensures { result ≡ self.buffer }
    {
        self.buffer
    }
}
