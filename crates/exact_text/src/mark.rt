//! One given octet, and a field that one ends.

ghost use Rattle.std.specs.Prelude.{◌≡◌, ◌≤◌, IfOk, IfErr};
ghost use Rattle.exact_octets.specs.Reading.{Gives, IsOfOctets};
ghost use Rattle.exact_text.specs.Text.{mark_at as mark_front, ended_at, decimal_at as decimal_front};

use crate::decimal::decimal_at;
use exact_octets::{ReadFault, octet_at};

/// This octet, and what stands behind it.
pub fn mark_at(octets: &[u8], mark: u8) -> Result<(u8, &[u8]), ReadFault>
    ensures gives { Gives (λ x. (x.0, x.1.now)) result (mark_front mark octets.now) }
    ensures no_memory { IfErr result IsOfOctets }
{
    octet_at(octets, mark, mark)
}

/// A number of `width` decimal digits, from `least` to `most`, and the mark behind it.
pub fn ended_decimal_at(
    octets: &[u8],
    width: usize,
    least: u64,
    most: u64,
    mark: u8,
) -> Result<(u64, &[u8]), ReadFault>
    ensures gives { Gives (λ x. (x.0, x.1.now)) result (ended_at mark (decimal_front width least most) octets.now) }
    ensures most { IfOk result (λ x. x.0 ≤ most) }
    ensures no_memory { IfErr result IsOfOctets }
{
    let (number, rest) = decimal_at(octets, width, least, most)?;
    let (_, rest) = mark_at(rest, mark)?;
    Ok((number, rest))
}
