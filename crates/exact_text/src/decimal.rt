//! Numbers in so many decimal digits, with zeros in front.

ghost use Rattle.std.specs.Prelude.{◌≡◌, ◌≤◌, ◌<◌, ◌+◌, ◌*◌, ◌/◌, ◌-◌, ◌^◌, ◌++◌, ◌&&◌, IfOk, IfErr, OnOk, OnErr};
ghost use Rattle.exact_octets.specs.Alphabet.{within};
ghost use Rattle.exact_octets.specs.Growth.{Keeps};
ghost use Rattle.exact_octets.specs.Reading.{Gives, IsOfOctets, made, octet_at as octet_front};
ghost use Rattle.exact_text.specs.Text.{decimal, last_at as last_front, decimal_at as decimal_front};

use exact_octets::ReadFault;
use kn_base::{Memory, Octets};

/// The last digit of a number, behind its high ones.
fn last_at(octets: &[u8], least: u64, most: u64, high: u64) -> Result<(u64, &[u8]), ReadFault>
    requires { high ≤ most / 10 }
    ensures gives { Gives (λ x. (x.0, x.1.now)) result (last_front least most high octets.now) }
    ensures most { IfOk result (λ x. x.0 ≤ most) }
    ensures no_memory { IfErr result IsOfOctets }
{
    match octets {
        [] => Err(ReadFault::Short),
        [octet, rest @ ..] => {
            if 48 <= *octet && *octet <= 57 {
                let digit = u64::from(*octet - 48);
                if digit <= most - high * 10 && least <= high * 10 + digit {
                    return Ok((high * 10 + digit, rest));
                }
            }
            Err(ReadFault::Malformed { left: octets.len() })
        }
    }
}

/// A number of `width` decimal digits, from `least` to `most`. It is wrong at the digit with which it leaves them.
pub fn decimal_at(
    octets: &[u8],
    width: usize,
    least: u64,
    most: u64,
) -> Result<(u64, &[u8]), ReadFault>
    ensures gives { Gives (λ x. (x.0, x.1.now)) result (decimal_front width least most octets.now) }
    ensures most { IfOk result (λ x. x.0 ≤ most) }
    ensures no_memory { IfErr result IsOfOctets }
{
    if width == 0 {
        return Ok((0, octets));
    }
    let (high, rest) = decimal_at(octets, width - 1, least / 10, most / 10)?;
    let (number, rest) = last_at(rest, least, most, high)?;
    Ok((number, rest))
}

/// Puts a number last in `width` decimal digits. After `Memory` the old octets still stand first.
pub fn put_decimal(into: &mut Octets, width: usize, number: u64) -> Result<(), Memory>
    ensures ok { OnOk result (into.new ≡ into.old ++ decimal width number) }
    ensures err { OnErr result (Keeps into.old into.new) }
{
    if width == 0 {
        return Ok(());
    }
    put_decimal(into, width - 1, number / 10)?;
    into.push(48 + (number % 10) as u8)
}
