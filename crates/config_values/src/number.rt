//! A value that is a number.

ghost use Rattle.std.specs.Prelude.{◌≡◌};
ghost use Rattle.config_values.specs.Values as spec;

use crate::shape::is_digits;
use kn_base::read_decimal;

/// The most digits of a number.
const MOST_DIGITS: usize = 9;

/// The number that 1 to 9 decimal digits write, and 0 of any other value. It takes no memory.
#[tactic(auto, using(crate::proofs::Numbers::number_reads))]
pub fn number_of(value: &[u8]) -> u64
    ensures { result ≡ spec.number_of value.now }
{
    if !is_digits(value, MOST_DIGITS) {
        return 0;
    }
    read_decimal(value, u64::MAX).unwrap_or(0)
}

/// Whether a value is a number, at least and at most so great.
pub(crate) fn is_number_within(value: &[u8], least: u64, most: u64) -> bool
    ensures { result ≡ spec.is_number_within least most value.now }
{
    let number = number_of(value);
    is_digits(value, MOST_DIGITS) && least <= number && number <= most
}
