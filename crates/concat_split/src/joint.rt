//! What a user data header that came in says of concatenation.

ghost use Rattle.std.specs.Prelude.{◌≡◌, [], List, None, Ok, IfOk, IfErr};
ghost use Rattle.exact_octets.specs.Reading.{Gives, IsOfOctets, made};
ghost use Rattle.sms_record.specs.Header.{Element, header, IsHeaderOrNone};
ghost use Rattle.sms_record.specs.HeaderReading.{element_of, elements_at as elements_front, header_at as header_front};
ghost use Rattle.concat_split.specs.Joint.{joint_of, first_joint, IsFaultOf};

use crate::HeaderFault;
use exact_octets::ReadFault;
use sms_record::header::{element_at, header_count_at};

/// The value of the element 00 (GSM 03.40 9.2.3.24.1).
#[derive(Clone, Copy, Debug, PartialEq)]
pub struct Joint {
    /// The number that the parts of one message share.
    pub reference: u8,
    /// How many parts the message has.
    pub total: u8,
    /// Which of them this is.
    pub part: u8,
}

/// What an element with this identifier and value says.
fn joint_of(id: u8, value: &[u8]) -> Option<Joint>
    ensures { result ≡ joint_of (element_of id value.now) }
{
    if id != 0 {
        return None;
    }
    let [reference, total, part] = value else {
        return None;
    };
    Some(Joint {
        reference: *reference,
        total: *total,
        part: *part,
    })
}

/// What the elements that fill `left` octets say, and what stands behind them.
fn joint_of_elements_at(octets: &[u8], left: usize) -> Result<(Option<Joint>, &[u8]), ReadFault>
    ensures gives { Gives (λ x. (x.0, x.1.now)) result (made first_joint (elements_front left) octets.now) }
    ensures no_memory { IfErr result IsOfOctets }
{
    let mut rest = octets;
    let mut left = left;
    let mut joint = None;
    while left > 0 {
        let (element, after) = element_at(rest, left)?;
        joint = joint.or(joint_of(element.id, element.value));
        rest = after;
        left -= element.value.len() + 2;
    }
    Ok((joint, rest))
}

/// What the header at the front says, and what stands behind it.
fn joint_at(octets: &[u8]) -> Result<(Option<Joint>, &[u8]), ReadFault>
    ensures gives { Gives (λ x. (x.0, x.1.now)) result (made first_joint header_front octets.now) }
    ensures no_memory { IfErr result IsOfOctets }
{
    let (count, rest) = header_count_at(octets)?;
    joint_of_elements_at(rest, count as usize)
}

/// What a header says of concatenation (GSM 03.40 9.2.3.24.1): its first element with the identifier 00 and three octets.
/// It takes no memory.
///
/// # Errors
/// `Malformed` where the octets are neither empty nor a header (GSM 03.40 9.2.3.24). `at` is the length of the longest front
/// that begins a header.
pub fn read_udh(udh: &[u8]) -> Result<Option<Joint>, HeaderFault>
    ensures empty { udh.now ≡ [] → result ≡ Ok None }
    ensures read { (es : List Element) → udh.now ≡ header es → result ≡ Ok (first_joint es) }
    ensures ok { IfOk result (λ _. IsHeaderOrNone udh.now) }
    ensures malformed { IfErr result (λ fault. IsFaultOf udh.now fault) }
{
    if udh.is_empty() {
        return Ok(None);
    }
    let at = match joint_at(udh) {
        Ok((joint, [])) => return Ok(joint),
        Ok((_, rest)) => udh.len() - rest.len(),
        Err(ReadFault::Malformed { left }) => udh.len() - left,
        Err(ReadFault::Short) => udh.len(),
        Err(ReadFault::Memory) => unreachable!(),
    };
    Err(HeaderFault::Malformed { at })
}
