//! An octet in two hex digits.

ghost use Rattle.std.specs.Prelude.{◌≡◌, ◌<◌, ◌++◌, IfErr, OnOk, OnErr};
ghost use Rattle.exact_octets.specs.Growth.{Keeps};
ghost use Rattle.exact_octets.specs.Reading.{Gives, IsOfOctets};
ghost use Rattle.exact_text.specs.Text.{hex_octet, digit as digit_front, hex_octet_at as hex_octet_front};

use exact_octets::{ReadFault, octet_at};
use kn_base::{Memory, Octets};

/// The hex digit of a number below 16, a letter in upper case.
fn digit(number: u8) -> u8
    requires { number < 16 }
    ensures { result ≡ digit_front number }
{
    if number < 10 {
        48 + number
    } else {
        55 + number
    }
}

/// The two hex digits of this octet, letters in upper case, and what stands behind them.
#[tactic(auto, unfolding(crate::specs::Text::hex_octet_at))]
pub fn hex_octet_at(octets: &[u8], value: u8) -> Result<((u8, u8), &[u8]), ReadFault>
    ensures gives { Gives (λ x. (x.0, x.1.now)) result (hex_octet_front value octets.now) }
    ensures no_memory { IfErr result IsOfOctets }
{
    let high = digit(value / 16);
    let low = digit(value % 16);
    let (high, rest) = octet_at(octets, high, high)?;
    let (low, rest) = octet_at(rest, low, low)?;
    Ok(((high, low), rest))
}

/// Puts an octet last in two hex digits, letters in upper case. After `Memory` the old octets still stand first.
pub fn put_hex_octet(into: &mut Octets, octet: u8) -> Result<(), Memory>
    ensures ok { OnOk result (into.new ≡ into.old ++ hex_octet octet) }
    ensures err { OnErr result (Keeps into.old into.new) }
{
    into.push(digit(octet / 16))?;
    into.push(digit(octet % 16))
}
