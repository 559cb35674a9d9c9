//! So many octets, and octets behind a number that says how many they are.

ghost use Rattle.std.specs.Prelude.{◌≡◌, ◌<◌, ◌++◌, length, IfOk, IfErr, OnOk, OnErr};
ghost use Rattle.exact_octets.specs.Growth.{Keeps};
ghost use Rattle.exact_octets.specs.Reading.{Gives, IsOfOctets, octets_at as octets_front, short_at as short_front, counted_at as counted_front};
ghost use Rattle.exact_octets.specs.Spelling.{short, long};

use crate::alphabet::is_in;
use crate::{Alphabet, Numbers, ReadFault, number_at, octet_at};
use kn_base::{Memory, Octets};

/// So many octets of an alphabet, and what stands behind them.
pub fn octets_at(octets: &[u8], len: usize, alphabet: Alphabet) -> Result<(&[u8], &[u8]), ReadFault>
    ensures gives { Gives (λ x. (x.0.now, x.1.now)) result (octets_front alphabet len octets.now) }
    ensures len { IfOk result (λ x. length x.0.now ≡ len) }
    ensures no_memory { IfErr result IsOfOctets }
{
    let front = &octets[..len.min(octets.len())];
    for (index, octet) in front.iter().enumerate() {
        if !is_in(alphabet, *octet) {
            return Err(ReadFault::Malformed {
                left: octets.len() - index,
            });
        }
    }
    if octets.len() < len {
        return Err(ReadFault::Short);
    }
    Ok(octets.split_at(len))
}

/// Octets of an alphabet behind one octet that says how many they are.
#[tactic(auto, unfolding(crate::specs::Reading::short_at))]
pub fn short_at(
    octets: &[u8],
    least: u8,
    most: u8,
    alphabet: Alphabet,
) -> Result<(&[u8], &[u8]), ReadFault>
    ensures gives { Gives (λ x. (x.0.now, x.1.now)) result (short_front least most alphabet octets.now) }
    ensures no_memory { IfErr result IsOfOctets }
{
    let (len, rest) = octet_at(octets, least, most)?;
    let (text, rest) = octets_at(rest, len as usize, alphabet)?;
    Ok((text, rest))
}

/// Octets of an alphabet behind a number of `width` octets, one of `numbers`, that says how many they are.
#[tactic(auto, unfolding(crate::specs::Reading::counted_at))]
pub fn counted_at(
    octets: &[u8],
    width: usize,
    numbers: Numbers,
    alphabet: Alphabet,
) -> Result<(&[u8], &[u8]), ReadFault>
    ensures gives { Gives (λ x. (x.0.now, x.1.now)) result (counted_front width numbers alphabet octets.now) }
    ensures no_memory { IfErr result IsOfOctets }
{
    let (len, rest) = number_at(octets, width, numbers)?;
    let (text, rest) = octets_at(rest, len as usize, alphabet)?;
    Ok((text, rest))
}

/// Puts octets last, behind one octet that says how many they are. After `Memory` the old octets still stand first.
pub fn put_short(into: &mut Octets, octets: &[u8]) -> Result<(), Memory>
    requires { length octets.now < 256 }
    ensures ok { OnOk result (into.new ≡ into.old ++ short octets.now) }
    ensures err { OnErr result (Keeps into.old into.new) }
{
    into.push(octets.len() as u8)?;
    into.extend_from_slice(octets)
}

/// Puts octets last, behind two octets that say how many they are. After `Memory` the old octets still stand first.
pub fn put_long(into: &mut Octets, octets: &[u8]) -> Result<(), Memory>
    requires { length octets.now < 65536 }
    ensures ok { OnOk result (into.new ≡ into.old ++ long octets.now) }
    ensures err { OnErr result (Keeps into.old into.new) }
{
    into.extend_from_slice(&(octets.len() as u16).to_be_bytes())?;
    into.extend_from_slice(octets)
}
