//! Optional parameters (SMPP 3.4, 3.2.4.1): a tag, a length and a value each.

ghost use Rattle.std.specs.Prelude.{◌≡◌, ◌+◌, ◌*◌, ◌<◌, List, ◌++◌, length, true, IfOk, IfErr, OnOk, OnErr};
ghost use Rattle.std.specs.List.{flat_map, AllByRecursion};
ghost use Rattle.exact_octets.specs.Growth.{Keeps};
ghost use Rattle.exact_octets.specs.Reading.{Gives, IsOfOctets, octet_at as octet_front, behind, filled_at};
ghost use Rattle.smpp_wire.specs.declared.room.Room.TheVariants.{Tlvs};
ghost use Rattle.smpp_wire.specs.Grammar.{Tlv, IsTlv, tlv, tlv_of, AreTlvs};
ghost use Rattle.smpp_wire.specs.Tlvs.{first_value, IsValue};
ghost use Rattle.smpp_wire.specs.Room.{fits};
ghost use Rattle.smpp_wire.specs.Reading.{is_high_len, is_value_len, value_len_at as value_len_front, tlv_at as tlv_front, tlvs_at as tlvs_front};

use crate::limits::EMPTY_TLV_LEN;
use exact_octets::{Alphabet, Numbers, ReadFault, number_at, octets_at, put_long};
use kn_base::{Memory, Octets};

/// An optional parameter.
#[derive(Clone, Copy)]
struct Parameter<'a> {
    tag: u64,
    value: &'a [u8],
}

/// The high octet of the length of a value, where `left` octets are left for the parameter and those behind it.
fn high_len_at(octets: &[u8], left: usize) -> Result<(u8, &[u8]), ReadFault>
    ensures gives { Gives (λ x. (x.0, x.1.now)) result (octet_front (is_high_len left) octets.now) }
    ensures no_memory { IfErr result IsOfOctets }
{
    match octets {
        [] => Err(ReadFault::Short),
        [high, rest @ ..] => {
            if usize::from(*high) * 256 + EMPTY_TLV_LEN <= left {
                Ok((*high, rest))
            } else {
                Err(ReadFault::Malformed { left: octets.len() })
            }
        }
    }
}

/// The low octet. Behind the value stand no octets or at least four, since no parameter has fewer.
fn low_len_at(octets: &[u8], left: usize, high: u8) -> Result<(u8, &[u8]), ReadFault>
    ensures gives { Gives (λ x. (x.0, x.1.now)) result (octet_front (λ low. is_value_len left (high * 256 + low)) octets.now) }
    ensures no_memory { IfErr result IsOfOctets }
{
    match octets {
        [] => Err(ReadFault::Short),
        [low, rest @ ..] => {
            let len = usize::from(high) * 256 + usize::from(*low);
            if len + EMPTY_TLV_LEN == left || len + 2 * EMPTY_TLV_LEN <= left {
                Ok((*low, rest))
            } else {
                Err(ReadFault::Malformed { left: octets.len() })
            }
        }
    }
}

#[tactic(auto, unfolding(crate::specs::Reading::value_len_at))]
fn value_len_at(octets: &[u8], left: usize) -> Result<(usize, &[u8]), ReadFault>
    ensures gives { Gives (λ x. (x.0, x.1.now)) result (value_len_front left octets.now) }
    ensures no_memory { IfErr result IsOfOctets }
{
    let (high, rest) = high_len_at(octets, left)?;
    let (low, rest) = low_len_at(rest, left, high)?;
    Ok((usize::from(high) * 256 + usize::from(low), rest))
}

/// The parameter at the front, where `left` octets are left for it and those behind it.
#[tactic(auto, unfolding(crate::specs::Reading::tlv_at))]
fn tlv_at(octets: &[u8], left: usize) -> Result<(Parameter, &[u8]), ReadFault>
    ensures gives { Gives (λ x. (tlv_of x.0.tag x.0.value.now, x.1.now)) result (tlv_front left octets.now) }
    ensures no_memory { IfErr result IsOfOctets }
{
    let (tag, rest) = number_at(octets, 2, Numbers::from_to(0, 65_535))?;
    let (len, rest) = value_len_at(rest, left)?;
    let (value, rest) = octets_at(rest, len, Alphabet::Any)?;
    Ok((Parameter { tag, value }, rest))
}

/// What stands behind the parameters that fill `left` octets.
fn behind_tlvs(octets: &[u8], left: usize) -> Result<&[u8], ReadFault>
    ensures gives { Gives (λ rest. rest.now) result (behind (filled_at tlv_front tlv left octets.now)) }
    ensures no_memory { IfErr result IsOfOctets }
{
    let mut rest = octets;
    let mut left = left;
    while left > 0 {
        let (parameter, after) = tlv_at(rest, left)?;
        rest = after;
        left = left.saturating_sub(parameter.value.len() + EMPTY_TLV_LEN);
    }
    Ok(rest)
}

/// The octets of the parameters that fill `left` octets.
pub(crate) fn tlvs_at(octets: &[u8], left: usize) -> Result<(&[u8], &[u8]), ReadFault>
    requires { fits Tlvs left ≡ true }
    ensures gives { Gives (λ x. (x.0.now, x.1.now)) result (tlvs_front left octets.now) }
    ensures no_memory { IfErr result IsOfOctets }
{
    behind_tlvs(octets, left)?;
    Ok(octets.split_at(left))
}

/// The value of the first parameter with a tag, in the octets of whole parameters.
pub fn tlv_value(tlvs: &[u8], tag: u16) -> Option<&[u8]>
    ensures { (ts : List Tlv) → AllByRecursion IsTlv ts → flat_map tlv ts ≡ tlvs.now → IsValue (first_value tag ts) result }
{
    let mut rest = tlvs;
    while rest.len() >= EMPTY_TLV_LEN {
        let Ok((parameter, behind)) = tlv_at(rest, rest.len()) else {
            return None;
        };
        if parameter.tag == u64::from(tag) {
            return Some(parameter.value);
        }
        rest = behind;
    }
    None
}

/// Puts a parameter last, or a front of it.
fn put_tlv(into: &mut Octets, tag: u16, value: &[u8]) -> Result<(), Memory>
    requires { length value.now < 65536 }
    ensures ok { OnOk result (into.new ≡ into.old ++ tlv (tlv_of tag value.now)) }
    ensures err { OnErr result (Keeps into.old into.new) }
{
    into.extend_from_slice(&tag.to_be_bytes())?;
    put_long(into, value)
}

/// Puts a parameter last, behind whole parameters or none. After `Memory` nothing has changed.
pub fn write_tlv(into: &mut Octets, tag: u16, value: &[u8]) -> Result<(), Memory>
    requires { length value.now < 65536 }
    ensures ok { OnOk result (into.new ≡ into.old ++ tlv (tlv_of tag value.now)) }
    ensures whole { OnOk result (AreTlvs into.old → AreTlvs into.new) }
    ensures err { OnErr result (into.new ≡ into.old) }
{
    let len = into.len();
    let put = put_tlv(into, tag, value);
    if put.is_err() {
        into.truncate(len);
    }
    put
}
