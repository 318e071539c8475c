// Numbers, as fields write them.
ghost use Rattle.std.specs.Prelude.{◌≡◌, ◌+◌, ◌-◌, ◌*◌, ◌^◌, ◌&&◌, min, nat_lt};
ghost use Rattle.script.specs.Numbers.{passing, is_digit, unsigned, signed};

use crate::field::Field;

// The number after one digit more, if it fits.
fn with_digit(n: u32, c: u8) -> Option<u32>
    ensures { result ≡ passing (is_digit c && nat_lt (10 * n + (c - 48)) (2 ^ 32)) (10 * n + (c - 48)) }
{
    let digit = char::from(c).to_digit(10)?;
    n.checked_mul(10)?.checked_add(digit)
}

// A number of digits alone; the library's `parse` reads a plus too.
impl Field for u32 {
    ghost says = { unsigned };

    #[tactic(auto, using(crate::proofs::Decimals::digits))]
    fn read(field: &[u8]) -> Option<u32> {
        if field.is_empty() {
            return None;
        }
        let mut n = 0;
        for c in field {
            n = with_digit(n, *c)?;
        }
        Some(n)
    }
}

// A number that may have a minus in front.
impl Field for i32 {
    ghost says = { signed };

    #[tactic(auto, using(crate::proofs::Decimals::signs))]
    fn read(field: &[u8]) -> Option<i32> {
        match field.strip_prefix(b"-") {
            Some(digits) => i32::try_from(-i64::from(u32::read(digits)?)).ok(),
            None => i32::try_from(u32::read(field)?).ok(),
        }
    }
}

// A number as a byte: one above 255 counts as 255.
pub fn as_byte(n: u32) -> u8
    ensures { result ≡ min n 255 }
{
    n.min(255) as u8
}
