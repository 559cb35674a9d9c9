//! The user data header that goes out with a part.

ghost use Rattle.std.specs.Prelude.{◌≡◌, ◌<◌, ◌≤◌, ◌^◌, length, None, Some, IfOk};
ghost use Rattle.sms_record.specs.Header.{IsHeaderOrNone};
ghost use Rattle.sms_record.specs.Room.{header_len};
ghost use Rattle.concat_split.specs.Joint.{Says};
ghost use Rattle.concat_split.specs.Outgoing.{header_of, reference};

use kn_base::{Memory, Octets};
use sms_record::Sms;
use std::alloc::Global;

/// The header that goes out, as it is defined.
fn udh_as_defined(alloc: Global, sms: &Sms, number: u64) -> Result<Octets, Memory>
    requires number { number < 2 ^ 63 }
    requires formed { IsHeaderOrNone sms.now.udh }
    requires short { length sms.now.udh ≤ 251 }
    ensures { IfOk result (λ udh. udh ≡ header_of sms.now.udh sms.now.total sms.now.part number) }
{
    if sms.total <= 1 {
        return Octets::from_slice(alloc, sms.udh.as_slice());
    }
    let reference = ((number + 257 - sms.part as u64) % 256) as u8;
    let element = [0, 3, reference, sms.total, sms.part];
    let mut udh = Octets::new(alloc);
    let [octets, elements @ ..] = sms.udh.as_slice() else {
        udh.push(5)?;
        udh.extend_from_slice(&element)?;
        return Ok(udh);
    };
    udh.push(*octets + 5)?;
    udh.extend_from_slice(elements)?;
    udh.extend_from_slice(&element)?;
    Ok(udh)
}

/// The header that goes out with a message of this number (GSM 03.40 9.2.3.24): the request's own, and behind it, where the
/// message is one of several parts, the element `00 03 reference total part`.
///
/// # Errors
/// `Memory`.
pub fn udh_of(alloc: Global, sms: &Sms, number: u64) -> Result<Octets, Memory>
    requires number { number < 2 ^ 63 }
    requires formed { IsHeaderOrNone sms.now.udh }
    requires short { length sms.now.udh ≤ 251 }
    ensures value { IfOk result (λ udh. udh ≡ header_of sms.now.udh sms.now.total sms.now.part number) }

    // It has as many octets as the room beside it was counted with.
    ensures len { IfOk result (λ udh. length udh ≡ header_len (length sms.now.udh) sms.now.total) }

    // It is well-formed, and where the request's own header says nothing of concatenation, it says which part this is.
    ensures formed { IfOk result (λ udh. IsHeaderOrNone udh) }
    ensures joined { Says sms.now.udh None → 1 < sms.now.total → IfOk result (λ udh. Says udh (Some (record {
      reference = reference number sms.now.part;
      total = sms.now.total;
      part = sms.now.part;
    }))) }
{
    udh_as_defined(alloc, sms, number)
}
