//! Numbers in decimal digits.

ghost use Rattle.std.specs.Prelude.{◌≡◌, ◌++◌, ◌+◌, ◌*◌, ◌^◌, ◌<◌, ◌≤◌, ◌↔◌, length, decimal, IsSome, IfSome, OnOk, OnErr};
ghost use Rattle.std.specs.Char.{digit_value};
ghost use Rattle.std.specs.Option.{SomeIff};
ghost use Rattle.kn_base.specs.Decimal.{IsDecimal, decimal_value};

use crate::{Memory, Octets};
use itoa::Buffer;

/// The most digits that a number may have.
const MAX_DIGITS: usize = 20;

/// The number that 1 to 20 decimal digits write, where it is at most `most`. It takes no memory.
pub fn read_decimal(text: &[u8], most: u64) -> Option<u64>
    ensures some { IsSome result ↔ (IsDecimal text.now × (decimal_value text.now ≤ most)) }
    ensures value { IfSome result (λ value. value ≡ decimal_value text.now) }
{
    if text.is_empty() || text.len() > MAX_DIGITS {
        return None;
    }
    let mut value: u64 = 0;
    for octet in text {
        match with_digit(value, *octet) {
            Some(longer) => value = longer,
            None => return None,
        }
    }
    if value <= most { Some(value) } else { None }
}

/// A number with one more digit behind it.
fn with_digit(value: u64, octet: u8) -> Option<u64>
    ensures { SomeIff result
        ((digit_value octet < 10) × (value * 10 + digit_value octet < 2 ^ 64))
        (value * 10 + digit_value octet) }
{
    if octet.is_ascii_digit() {
        value.checked_mul(10)?.checked_add(u64::from(octet - b'0'))
    } else {
        None
    }
}

/// Puts a number last, in decimal digits without leading zeros. After `Memory` nothing has changed.
pub fn write_decimal(into: &mut Octets, value: u64) -> Result<(), Memory>
    ensures ok { OnOk result (into.new ≡ into.old ++ decimal value) }
    ensures err { OnErr result (into.new ≡ into.old) }
{
    let mut buffer = Buffer::new();
    into.extend_from_slice(buffer.format(value).as_bytes())
}
