// The laws of listings.
ghost use Rattle.listing.specs.Laws.{Laws};

pub fn listings_are_plain() -> u8
    ensures { Laws }
{
    0
}
