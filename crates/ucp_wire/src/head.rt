//! What stands in a frame before its checksum (EMI/UCP 4.0).

ghost use Rattle.std.specs.Prelude.{◌≡◌, ◌≤◌, IfOk, IfErr};
ghost use Rattle.exact_octets.specs.Reading.{Gives, IsOfOctets, value_of};
ghost use Rattle.ucp_wire.specs.Grammar.{command_of, kind_code, kinds};
ghost use Rattle.ucp_wire.specs.Reading.{kind_at as kind_front, fields_at as fields_front, head_at as head_front};

use crate::Pdu;
use exact_octets::{ReadFault, any_octet_at, named};
use exact_text::{Characters, characters_at, ended_decimal_at, mark_at};

/// STX, which begins a frame.
const STX: u8 = 2;
/// What ends a field.
pub(crate) const SLASH: u8 = 47;
/// How many octets stand between STX and ETX beside the fields.
pub(crate) const FRAME_LEN: u64 = 17;
/// The greatest LEN. A frame has two octets more.
const MOST_LEN: u64 = 2046;

/// Whether a letter names a result, if it names anything.
fn kind_of(letter: u8) -> Option<bool>
    ensures { result ≡ value_of kind_code kinds letter }
{
    match letter {
        79 => Some(false),
        82 => Some(true),
        _ => None,
    }
}

fn kind_at(octets: &[u8]) -> Result<(bool, &[u8]), ReadFault>
    ensures gives { Gives (λ x. (x.0, x.1.now)) result (kind_front octets.now) }
    ensures no_memory { IfErr result IsOfOctets }
{
    let (letter, rest) = any_octet_at(octets)?;
    let (result, rest) = named(kind_of(letter), rest)?;
    let (_, rest) = mark_at(rest, SLASH)?;
    Ok((result, rest))
}

fn fields_at(octets: &[u8], len: usize) -> Result<(&[u8], &[u8]), ReadFault>
    ensures gives { Gives (λ x. (x.0.now, x.1.now)) result (fields_front len octets.now) }
    ensures no_memory { IfErr result IsOfOctets }
{
    let (fields, rest) = characters_at(octets, len, Characters::Text)?;
    let (_, rest) = mark_at(rest, SLASH)?;
    Ok((fields, rest))
}

/// What stands from STX up to the checksum, and what stands behind it.
#[tactic(auto, unfolding(crate::specs::Reading::head_at))]
pub(crate) fn head_at(octets: &[u8]) -> Result<(Pdu, &[u8]), ReadFault>
    ensures gives { Gives (λ x. (command_of x.0, x.1.now)) result (head_front octets.now) }
    ensures no_memory { IfErr result IsOfOctets }
{
    let (_, rest) = mark_at(octets, STX)?;
    let (trn, rest) = ended_decimal_at(rest, 2, 0, 99, SLASH)?;
    let (len, rest) = ended_decimal_at(rest, 5, FRAME_LEN, MOST_LEN, SLASH)?;
    let (result, rest) = kind_at(rest)?;
    let (operation, rest) = ended_decimal_at(rest, 2, 0, 99, SLASH)?;
    let (fields, rest) = fields_at(rest, len.saturating_sub(FRAME_LEN) as usize)?;
    Ok((
        Pdu {
            trn: trn as u8,
            result,
            operation: operation as u8,
            fields,
        },
        rest,
    ))
}
