//! The user data header (GSM 03.40 9.2.3.24) out of its octets: borrowed, and without taking memory.

ghost use Rattle.std.specs.Prelude.{◌≡◌, ◌≢◌, ◌+◌, ◌≤◌, length, IfOk, IfErr};
ghost use Rattle.exact_octets.specs.Reading.{Gives, IsOfOctets, behind, octet_at as octet_front};
ghost use Rattle.sms_record.specs.HeaderReading.{is_count, is_value_len, is_udh_len, element_of, element_at as element_front, elements_at as elements_front, udh_of_len_at as udh_of_len_front, udh_at as udh_front};

use crate::limits::MOST_HEADER;
use exact_octets::{Alphabet, ReadFault, any_octet_at, octet_at, octets_at};

/// One element of a header.
#[derive(Clone, Copy)]
pub struct Element<'a> {
    /// What it is.
    pub id: u8,
    /// The octets of its value.
    pub value: &'a [u8],
}

/// How many octets follow the first one of a header: any number but 1, since no element has one octet.
pub fn header_count_at(octets: &[u8]) -> Result<(u8, &[u8]), ReadFault>
    ensures gives { Gives (λ x. (x.0, x.1.now)) result (octet_front is_count octets.now) }
    ensures not_one { IfOk result (λ x. x.0 ≢ 1) }
    ensures no_memory { IfErr result IsOfOctets }
{
    match octets {
        [] => Err(ReadFault::Short),
        [count, rest @ ..] => {
            if *count != 1 {
                Ok((*count, rest))
            } else {
                Err(ReadFault::Malformed { left: octets.len() })
            }
        }
    }
}

/// How many octets the value of an element has, where `left` are left from its id on.
fn value_len_at(octets: &[u8], left: usize) -> Result<(u8, &[u8]), ReadFault>
    ensures gives { Gives (λ x. (x.0, x.1.now)) result (octet_front (is_value_len left) octets.now) }
    ensures room { IfOk result (λ x. x.0 + 2 ≤ left) }
    ensures no_memory { IfErr result IsOfOctets }
{
    match octets {
        [] => Err(ReadFault::Short),
        [len, rest @ ..] => {
            let element = usize::from(*len) + 2;
            if element <= left && element + 1 != left {
                Ok((*len, rest))
            } else {
                Err(ReadFault::Malformed { left: octets.len() })
            }
        }
    }
}

/// The element at the front, and what stands behind it, where `left` octets of the header are left from its id on.
///
/// `Malformed` at the length of its value, where that passes the header's end or leaves one octet before it, which is no
/// element.
#[tactic(auto, unfolding(crate::specs::HeaderReading::element_at))]
pub fn element_at(octets: &[u8], left: usize) -> Result<(Element, &[u8]), ReadFault>
    ensures gives { Gives (λ x. (element_of x.0.id x.0.value.now, x.1.now)) result (element_front left octets.now) }
    ensures room { IfOk result (λ x. length x.0.value.now + 2 ≤ left) }
    ensures no_memory { IfErr result IsOfOctets }
{
    let (id, rest) = any_octet_at(octets)?;
    let (len, rest) = value_len_at(rest, left)?;
    let (value, rest) = octets_at(rest, len as usize, Alphabet::Any)?;
    Ok((Element { id, value }, rest))
}

/// What stands behind the elements that fill `left` octets.
fn behind_elements(octets: &[u8], left: usize) -> Result<&[u8], ReadFault>
    ensures { Gives (λ rest. rest.now) result (behind (elements_front left octets.now)) }
{
    let mut rest = octets;
    let mut left = left;
    while left > 0 {
        let (element, after) = element_at(rest, left)?;
        rest = after;
        left -= element.value.len() + 2;
    }
    Ok(rest)
}

/// A header of `len` octets.
fn udh_of_len_at(octets: &[u8], len: u8) -> Result<(&[u8], &[u8]), ReadFault>
    requires { len ≢ 2 }
    ensures { Gives (λ x. (x.0.now, x.1.now)) result (udh_of_len_front len octets.now) }
{
    if len == 0 {
        return Ok(octets.split_at(0));
    }
    let (_, rest) = octet_at(octets, len - 1, len - 1)?;
    behind_elements(rest, (len - 1) as usize)?;
    Ok(octets.split_at(len as usize))
}

/// How many octets the header of a message has.
fn udh_len_at(octets: &[u8]) -> Result<(u8, &[u8]), ReadFault>
    ensures gives { Gives (λ x. (x.0, x.1.now)) result (octet_front is_udh_len octets.now) }
    ensures not_two { IfOk result (λ x. x.0 ≢ 2) }
{
    match octets {
        [] => Err(ReadFault::Short),
        [len, rest @ ..] => {
            if *len <= MOST_HEADER && *len != 2 {
                Ok((*len, rest))
            } else {
                Err(ReadFault::Malformed { left: octets.len() })
            }
        }
    }
}

/// The header of a message behind its length, or none.
#[tactic(auto, unfolding(crate::specs::HeaderReading::udh_at))]
pub(crate) fn udh_at(octets: &[u8]) -> Result<(&[u8], &[u8]), ReadFault>
    ensures { Gives (λ x. (x.0.now, x.1.now)) result (udh_front octets.now) }
{
    let (len, rest) = udh_len_at(octets)?;
    let (udh, rest) = udh_of_len_at(rest, len)?;
    Ok((udh, rest))
}
