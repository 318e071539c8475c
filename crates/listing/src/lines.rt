// One line of a listing: its record, its length, and where it may stand.
ghost use Rattle.std.specs.Prelude.{◌≡◌, ℕ, ◌<◌, if◌then◌else◌, Some, None, MatchOption, ◌≢◌};
ghost use Rattle.listing.specs.declared.record.Record.{Record as Line};
ghost use Rattle.listing.specs.Octets.{digit_of_hex, octet};
ghost use Rattle.listing.specs.Listing.{dec, hex, wide, Writable, Begins, Four, Two, allowed, slot_then};

use crate::record::Record;
use ssd1329::Transfer;

// The number of a hexadecimal digit, 0 to 9 or A to F; the library reads small letters too.
fn hex_digit(b: u8) -> Option<u8>
    ensures value { result ≡ digit_of_hex b }
    ensures written { MatchOption result ((d : ℕ) → d < 16 → b ≢ hex d) (λ d. (d < 16) × (b ≡ hex d)) }
{
    match b {
        b'0'..=b'9' => Some(b - b'0'),
        b'A'..=b'F' => Some(b - b'A' + 10),
        _ => None,
    }
}

fn digit(b: u8) -> Option<u8>
    ensures { MatchOption result ((d : ℕ) → d < 10 → b ≢ dec d) (λ d. (d < 10) × (b ≡ dec d)) }
{
    b.checked_sub(b'0').filter(|d| *d < 10)
}

// The number that four decimal digits write.
fn grant(a: u8, b: u8, c: u8, d: u8) -> Option<u16>
    ensures { MatchOption result ((n : ℕ) → n < 10000 → Four a b c d n → ⊥) (λ n. (n < 10000) × Four a b c d n) }
{
    let a = digit(a)?;
    let b = digit(b)?;
    let c = digit(c)?;
    let d = digit(d)?;
    Some(u16::from(a) * 1000 + u16::from(b) * 100 + u16::from(c) * 10 + u16::from(d))
}

// The byte that two hexadecimal digits write, each 0 to 9 or A to F; other characters write none.
pub fn octet(a: u8, b: u8) -> Option<u8>
    ensures value { result ≡ octet a b }
    ensures written { MatchOption result ((n : ℕ) → n < 256 → Two a b n → ⊥) (λ n. (n < 256) × Two a b n) }
{
    let a = hex_digit(a)?;
    let b = hex_digit(b)?;
    Some(a * 16 + b)
}

// The record whose line the text begins with.
pub fn first_record(text: &[u8]) -> Option<Record>
    ensures { MatchOption result ((x : Line) → Writable x → Begins text.now x → ⊥) (λ x. Writable x × Begins text.now x) }
{
    match text {
        [b'O', b'\t', a, b, c, d, b'\n', ..] => grant(*a, *b, *c, *d).map(Record::Open),
        [b'C', b'\t', a, b, b'\n', ..] => octet(*a, *b).map(|n| Record::Sent(Transfer::Command(n))),
        [b'D', b'\t', a, b, b'\n', ..] => octet(*a, *b).map(|n| Record::Sent(Transfer::Data(n))),
        [b'Z', b'\n', ..] => Some(Record::Close),
        _ => None,
    }
}

// How many bytes a record's line has.
pub fn width(r: Record) -> usize
    ensures { result ≡ wide r }
{
    match r {
        Record::Open(_) => 7,
        Record::Sent(_) => 5,
        Record::Close => 2,
    }
}

// The slot after a record, none if closed, else how many transfers are left; no slot at all where the record may not
// follow.
pub fn follow(slot: Option<u16>, r: Record) -> Option<Option<u16>>
    ensures { result ≡ (if allowed slot r then Some (slot_then slot r) else None) }
{
    match (slot, r) {
        (None, Record::Open(n @ 1..=9999)) => Some(Some(n)),
        (Some(left), Record::Sent(_)) if 0 < left => Some(Some(left - 1)),
        (Some(_), Record::Close) => Some(None),
        _ => None,
    }
}
