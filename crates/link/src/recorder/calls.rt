// The listing link as a link.
// A method that promises more than the trait's says the trait's clauses again, since its own stand in their place.
ghost use Rattle.std.specs.Prelude.{◌≡◌};
ghost use Rattle.listing.specs.declared.record.Record.TheVariants.{Open, Sent, Close};
ghost use Rattle.link.specs.Links.{open_answer, open_after, send_answer, send_after, close_answer, CloseAfter};
ghost use Rattle.link.specs.ListedLaws.{listing_lawful};
ghost use Rattle.link.specs.Listed.{listing_meaning, ListsMore};

use super::ListingLink;
use crate::links::{Link, granted, spent};
use listing::Record;
use refusal::Refusal;
use ssd1329::Transfer;

impl Link for ListingLink {
    ghost means = { listing_meaning };

    ghost lawful = { listing_lawful };

    fn open(&mut self, n: u32) -> Result<u32, Refusal>
        ensures answer { result ≡ open_answer (listing_meaning self.old) n }
        ensures after { listing_meaning self.new ≡ open_after (listing_meaning self.old) result }
        ensures listed { ListsMore result (λ grant. Open grant) self.old self.new }
    {
        let grant = granted(self.slot, self.room(), n)?;
        self.list(Record::Open(grant as u16), Some(grant), self.taken);
        Ok(grant)
    }

    fn send(&mut self, t: Transfer) -> Result<(), Refusal>
        ensures answer { result ≡ send_answer (listing_meaning self.old).slot }
        ensures after { listing_meaning self.new ≡ send_after (listing_meaning self.old) t result }
        ensures listed { ListsMore result (λ _. Sent t) self.old self.new }
    {
        let left = spent(self.slot)?;
        self.list(Record::Sent(t), Some(left), self.taken + 1);
        Ok(())
    }

    fn close(&mut self) -> Result<(), Refusal>
        ensures answer { result ≡ close_answer (listing_meaning self.old).slot }
        ensures after { CloseAfter (listing_meaning self.old) result (listing_meaning self.new) }
        ensures listed { ListsMore result (λ _. Close) self.old self.new }
    {
        self.slot.ok_or(Refusal::NoSlot)?;
        self.list(Record::Close, None, self.taken);
        Ok(())
    }

    fn left(&self) -> Option<u32> {
        self.slot
    }

    fn room(&self) -> u32 {
        let capacity = if ListingLink::check(&self.buffer).is_ok() {
            self.buffer.len()
        } else {
            0
        };
        let free = capacity - self.used;
        let after = if self.slot.is_some() { 2 } else { 9 };
        (free.saturating_sub(after) / 5) as u32
    }

    fn taken(&self) -> u32 {
        self.taken
    }
}
