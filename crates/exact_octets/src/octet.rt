//! One octet, and what it names.

ghost use Rattle.std.specs.Prelude.{◌≡◌, IfErr};
ghost use Rattle.exact_octets.specs.declared.alphabet.Alphabet.TheVariants.{Any};
ghost use Rattle.exact_octets.specs.Alphabet.{within, is_in};
ghost use Rattle.exact_octets.specs.Reading.{Gives, IsOfOctets, octet_at as octet_front, named as named_front};

use crate::ReadFault;

/// The first octet, whatever it is, and what stands behind it.
pub fn any_octet_at(octets: &[u8]) -> Result<(u8, &[u8]), ReadFault>
    ensures gives { Gives (λ x. (x.0, x.1.now)) result (octet_front (is_in Any) octets.now) }
    ensures no_memory { IfErr result IsOfOctets }
{
    match octets {
        [] => Err(ReadFault::Short),
        [octet, rest @ ..] => Ok((*octet, rest)),
    }
}

/// What the octet before the others named, if it names anything.
pub fn named<T>(value: Option<T>, rest: &[u8]) -> Result<(T, &[u8]), ReadFault>
    ensures gives { Gives (λ x. (x.0, x.1.now)) result (named_front value rest.now) }
    ensures no_memory { IfErr result IsOfOctets }
{
    match value {
        Some(value) => Ok((value, rest)),
        None => Err(ReadFault::Malformed {
            left: rest.len() + 1,
        }),
    }
}

/// One octet between two bounds, and what stands behind it.
pub fn octet_at(octets: &[u8], least: u8, most: u8) -> Result<(u8, &[u8]), ReadFault>
    ensures gives { Gives (λ x. (x.0, x.1.now)) result (octet_front (within least most) octets.now) }
    ensures no_memory { IfErr result IsOfOctets }
{
    match octets {
        [] => Err(ReadFault::Short),
        [octet, rest @ ..] => {
            if least <= *octet && *octet <= most {
                Ok((*octet, rest))
            } else {
                Err(ReadFault::Malformed { left: octets.len() })
            }
        }
    }
}
