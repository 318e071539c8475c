// The numbers and the words of a refusal.
ghost use Rattle.std.specs.Prelude.{◌≡◌};
ghost use Rattle.refusal.specs.Numbers.{number, bad_listing_number};

use crate::bad_listing::BadListing;
use crate::refusals::Refusal;
use std::error::Error;
use std::fmt;

impl Refusal {
    pub fn number(self) -> u8
        ensures { result ≡ number self }
    {
        match self {
            Refusal::InUse => 1,
            Refusal::GrantSpent => 2,
            Refusal::NoSlot => 3,
            Refusal::NoRoom => 4,
            Refusal::SlotSize => 5,
            Refusal::Position => 6,
            Refusal::Size => 7,
            Refusal::Gray => 8,
            Refusal::PictureShape => 9,
            Refusal::CropOutside => 10,
            Refusal::Shift => 11,
            Refusal::OutsidePicture => 12,
            Refusal::Memory => 15,
        }
    }
}

// The words that go with a number: a table of its own, since the numbers are promised and the words are not.
fn words(r: Refusal) -> &'static str {
    match r {
        Refusal::InUse => "slot open, or link not fresh",
        Refusal::GrantSpent => "grant used up",
        Refusal::NoSlot => "no slot open",
        Refusal::NoRoom => "no room left on the link",
        Refusal::SlotSize => "slot size outside 1 to 9999",
        Refusal::Position => "position out of range",
        Refusal::Size => "width or height above 255",
        Refusal::Gray => "gray above 15",
        Refusal::PictureShape => "picture size or byte count wrong",
        Refusal::CropOutside => "crop empty or not inside",
        Refusal::Shift => "shift above 127",
        Refusal::OutsidePicture => "dot outside the picture",
        Refusal::Memory => "memory of the wrong length",
    }
}

impl fmt::Display for Refusal {
    fn fmt<W: fmt::Write>(&self, f: &mut fmt::Formatter<W>) -> fmt::Result {
        let number = self.number();
        let text = words(*self);
        write!(f, "{number}: {text}")
    }
}

impl Error for Refusal {}

impl BadListing {
    pub fn number(self) -> u8
        ensures { result ≡ bad_listing_number }
    {
        13
    }
}
