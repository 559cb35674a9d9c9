//! How a message's body is coded (GSM 03.38, section 4), and its octet in a record.

ghost use Rattle.std.specs.Prelude.{◌≡◌};
ghost use Rattle.exact_octets.specs.Reading.{Gives, value_of};
ghost use Rattle.sms_record.specs.Codes.{codings, coding_code};
ghost use Rattle.sms_record.specs.RecordReading.{coding_at as coding_front};

use exact_octets::{ReadFault, any_octet_at, named};

/// The coding of a body.
#[derive(Clone, Copy, Debug, PartialEq, Eq)]
pub enum Coding {
    /// The default alphabet (GSM 03.38 6.2.1): one septet, below 128, in each octet of the body.
    Seven,
    /// Eight-bit data: octets of the requester's own.
    Eight,
    /// UCS-2: units of two octets, the high one first.
    Ucs2,
}

pub(crate) fn code_of_coding(coding: Coding) -> u8
    ensures { result ≡ coding_code coding }
{
    match coding {
        Coding::Seven => 0,
        Coding::Eight => 1,
        Coding::Ucs2 => 2,
    }
}

fn coding_of(code: u8) -> Option<Coding>
    ensures { result ≡ value_of coding_code codings code }
{
    match code {
        0 => Some(Coding::Seven),
        1 => Some(Coding::Eight),
        2 => Some(Coding::Ucs2),
        _ => None,
    }
}

#[tactic(auto, unfolding(crate::specs::RecordReading::coding_at))]
pub(crate) fn coding_at(octets: &[u8]) -> Result<(Coding, &[u8]), ReadFault>
    ensures { Gives (λ x. (x.0, x.1.now)) result (coding_front octets.now) }
{
    let (code, rest) = any_octet_at(octets)?;
    named(coding_of(code), rest)
}
