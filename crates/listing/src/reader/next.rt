// Reading on.
ghost use Rattle.std.specs.Prelude.{◌≡◌};
ghost use Rattle.listing.specs.Reading.{Next};

use super::Reader;
use crate::lines::{first_record, follow, width};
use crate::record::Record;
use refusal::BadListing;

// The longest text that is read.
const LONGEST: usize = 65535;

impl<'a> Reader<'a> {
    pub fn new(text: &'a [u8]) -> Reader<'a>
        ensures { (result.text.now ≡ text.now) × (result.at ≡ 0) }
    {
        Reader {
            text,
            at: 0,
            slot: None,
        }
    }

    // The next record, or none at the end, or where the text is bad.
    pub fn next(&mut self) -> Result<Option<Record>, BadListing>
        ensures same { self.new.text.now ≡ self.old.text.now }
        ensures read { Next self.old.text.now self.old.at self.new.at result }
    {
        if self.text.len() > LONGEST {
            return Err(BadListing { place: LONGEST });
        }
        if self.at >= self.text.len() {
            return Ok(None);
        }
        let bad = BadListing { place: self.at };
        let record = first_record(&self.text[self.at..]).ok_or(bad)?;
        let slot = follow(self.slot, record).ok_or(bad)?;
        self.at += width(record);
        self.slot = slot;
        Ok(Some(record))
    }
}
