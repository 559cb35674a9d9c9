//! The header of a frame (SMPP 3.4, 3.2 and 5.1): four numbers of four octets each, the high octet first.

ghost use Rattle.std.specs.Prelude.{◌≡◌, ◌<◌, ◌≤◌, ◌+◌, ◌*◌, ◌^◌, IfErr};
ghost use Rattle.exact_octets.specs.Reading.{Gives, IsOfOctets, octet_at as octet_front};
ghost use Rattle.smpp_wire.specs.Grammar.{row_of as row_in_grammar};
ghost use Rattle.smpp_wire.specs.Room.{room_of, fits};
ghost use Rattle.smpp_wire.specs.Reading.{id_at as id_front, number_of_four_at as number_of_four_front, header_at as header_front};

use crate::limits::{HEADER_LEN, MOST_FRAME};
use crate::row::row_of;
use exact_octets::{Numbers, ReadFault, number_at};

/// What the header says.
#[derive(Clone, Copy)]
pub(crate) struct Header {
    /// How many octets the body has.
    pub body_len: usize,
    pub id: u32,
    pub status: u32,
    pub sequence: u32,
}

/// The last octet of command_id, which names a command whose body can have `body_len` octets.
fn last_of_id_at(octets: &[u8], high: u32, body_len: usize) -> Result<(u8, &[u8]), ReadFault>
    requires { high < 2 ^ 24 }
    ensures gives { Gives (λ x. (x.0, x.1.now)) result (octet_front (λ low. fits (room_of (row_in_grammar (high * 256 + low))) body_len) octets.now) }
    ensures no_memory { IfErr result IsOfOctets }
{
    match octets {
        [] => Err(ReadFault::Short),
        [low, rest @ ..] => {
            if row_of(high * 256 + u32::from(*low)).room().fits(body_len) {
                Ok((*low, rest))
            } else {
                Err(ReadFault::Malformed { left: octets.len() })
            }
        }
    }
}

#[tactic(auto, unfolding(crate::specs::Reading::id_at))]
fn id_at(octets: &[u8], body_len: usize) -> Result<(u32, &[u8]), ReadFault>
    ensures gives { Gives (λ x. (x.0, x.1.now)) result (id_front body_len octets.now) }
    ensures no_memory { IfErr result IsOfOctets }
{
    let (high, rest) = number_at(octets, 3, Numbers::from_to(0, 0xff_ffff))?;
    let high = high as u32;
    let (low, rest) = last_of_id_at(rest, high, body_len)?;
    Ok((high * 256 + u32::from(low), rest))
}

fn number_of_four_at(octets: &[u8]) -> Result<(u32, &[u8]), ReadFault>
    ensures gives { Gives (λ x. (x.0, x.1.now)) result (number_of_four_front octets.now) }
    ensures no_memory { IfErr result IsOfOctets }
{
    let (number, rest) = number_at(octets, 4, Numbers::from_to(0, 0xffff_ffff))?;
    Ok((number as u32, rest))
}

/// The header at the front. command_length counts the header too.
#[tactic(auto, unfolding(crate::specs::Reading::header_at))]
pub(crate) fn header_at(octets: &[u8]) -> Result<(Header, &[u8]), ReadFault>
    ensures gives { Gives (λ x. ((x.0.body_len, (x.0.id, (x.0.status, x.0.sequence))), x.1.now)) result (header_front octets.now) }
    ensures no_memory { IfErr result IsOfOctets }
{
    let (len, rest) = number_at(octets, 4, Numbers::from_to(HEADER_LEN, MOST_FRAME))?;
    let body_len = len.saturating_sub(HEADER_LEN) as usize;
    let (id, rest) = id_at(rest, body_len)?;
    let (status, rest) = number_of_four_at(rest)?;
    let (sequence, rest) = number_of_four_at(rest)?;
    Ok((
        Header {
            body_len,
            id,
            status,
            sequence,
        },
        rest,
    ))
}
