// Bytes, as a field of hexadecimal digits writes them.
ghost use Rattle.std.specs.Prelude.{vec_items};
ghost use Rattle.script.specs.Hex.{bytes_of_hex};
ghost use Rattle.script.specs.Faults.{Reads};

use crate::fault::Fault;
use listing::octet;
use std::alloc::Global;

#[tactic(auto, using(crate::proofs::Octets::octets))]
pub fn hex_bytes(heap: Global, field: &[u8]) -> Result<Vec<u8>, Fault>
    ensures { Reads vec_items (bytes_of_hex field.now) result }
{
    let mut bytes = Vec::new(heap);
    let mut rest = field;
    while let [a, b, after @ ..] = rest {
        bytes.push(octet(*a, *b).ok_or(Fault::Unreadable)?)?;
        rest = after;
    }
    if rest.is_empty() {
        Ok(bytes)
    } else {
        Err(Fault::Unreadable)
    }
}
