// Writing one record.
ghost use Rattle.std.specs.Prelude.{◌≡◌, ◌<◌};
ghost use Rattle.listing.specs.Listing.{hex};
ghost use Rattle.listing.specs.Writing.{legal, PutAnswer, RecordWritten};

use crate::record::Record;
use refusal::Refusal;
use ssd1329::Transfer;

// A hexadecimal digit; the library writes those above 9 small.
fn hex_char(d: u8) -> u8
    requires { d < 16 }
    ensures { result ≡ hex d }
{
    if d < 10 { b'0' + d } else { b'A' - 10 + d }
}

// Whether a line can show the record: a grant is 1 to 9,999.
fn is_legal(r: Record) -> bool
    ensures { result ≡ legal r }
{
    match r {
        Record::Open(n) => (1..=9999).contains(&n),
        Record::Sent(_) | Record::Close => true,
    }
}

// Copies bytes to a place in the buffer; the answer is where they end.
fn put(out: &mut [u8], at: usize, bytes: &[u8]) -> Result<usize, Refusal>
    ensures { PutAnswer out.old at bytes.now out.new result }
{
    let n = bytes.len();
    if out.len() < n || out.len() - n < at {
        return Err(Refusal::Memory);
    }
    out[at..at + n].copy_from_slice(bytes);
    Ok(at + n)
}

// Writes the line of a record into the buffer at a place; the answer is where it ends. The buffer is fixed memory of the
// caller, who keeps the place.
// A grant outside 1 to 9,999 is refused, then a buffer that is too short.
pub fn write_record(out: &mut [u8], at: usize, r: Record) -> Result<usize, Refusal>
    ensures { RecordWritten out.old at r out.new result }
{
    if !is_legal(r) {
        return Err(Refusal::SlotSize);
    }
    match r {
        Record::Open(n) => {
            put(
                out,
                at,
                &[
                    b'O',
                    b'\t',
                    b'0' + (n / 1000 % 10) as u8,
                    b'0' + (n / 100 % 10) as u8,
                    b'0' + (n / 10 % 10) as u8,
                    b'0' + (n % 10) as u8,
                    b'\n',
                ],
            )
        }
        Record::Sent(t) => {
            let (letter, b) = match t {
                Transfer::Command(b) => (b'C', b),
                Transfer::Data(b) => (b'D', b),
            };
            put(
                out,
                at,
                &[letter, b'\t', hex_char(b / 16), hex_char(b % 16), b'\n'],
            )
        }
        Record::Close => put(out, at, b"Z\n"),
    }
}
