// Reading a whole text. The text and the controller are two things of a caller, and lent apart.
ghost use Rattle.std.specs.Prelude.{◌≡◌};
ghost use Rattle.ssd1329.specs.Meaning.{chip};
ghost use Rattle.listing.specs.Replay.{met, Read, Checked};

use crate::reader::Reader;
use crate::record::Record;
use refusal::BadListing;
use ssd1329::Controller;

// Whether the text is a listing; if not, where its first bad line begins.
pub fn check(text: &[u8]) -> Result<(), BadListing>
    ensures { Checked text.now result }
{
    let mut reader = Reader::new(text);
    while reader.next()?.is_some() {}
    Ok(())
}

fn meet(controller: &mut Controller, r: Record)
    ensures { chip controller.new ≡ met (chip controller.old) r }
{
    match r {
        Record::Open(_) => {}
        Record::Sent(t) => controller.step(t),
        Record::Close => controller.end_slot(),
    }
}

// Gives the controller the slots and transfers that the text lists; a text that is no listing gives it nothing.
pub fn replay(text: &[u8], controller: &mut Controller) -> Result<(), BadListing>
    ensures { Read text.now (chip controller.old) (chip controller.new) result }
{
    check(text)?;
    let mut reader = Reader::new(text);
    while let Some(r) = reader.next()? {
        meet(controller, r);
    }
    Ok(())
}
