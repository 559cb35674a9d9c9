//! A short message behind its length (SMPP 3.4, 5.2.21 and 5.2.22).

ghost use Rattle.std.specs.Prelude.{◌≡◌, ◌+◌, ◌-◌, length, true, IfOk, IfErr};
ghost use Rattle.exact_octets.specs.Reading.{Gives, IsOfOctets, octet_at as octet_front};
ghost use Rattle.smpp_wire.specs.declared.room.Room.TheVariants.{Tlvs};
ghost use Rattle.smpp_wire.specs.Room.{fits};
ghost use Rattle.smpp_wire.specs.Reading.{is_message_len, short_message_at as short_message_front};

use crate::limits::MOST_SHORT_MESSAGE;
use crate::room::Room;
use exact_octets::{Alphabet, ReadFault, octets_at};

/// sm_length, where `left` octets are left for it, the message and the TLVs behind it.
fn message_len_at(octets: &[u8], left: usize) -> Result<(u8, &[u8]), ReadFault>
    ensures gives { Gives (λ x. (x.0, x.1.now)) result (octet_front (is_message_len left) octets.now) }
    ensures room { IfOk result (λ x. fits Tlvs (left - (x.0 + 1)) ≡ true) }
    ensures no_memory { IfErr result IsOfOctets }
{
    match octets {
        [] => Err(ReadFault::Short),
        [len, rest @ ..] => {
            let size = usize::from(*len) + 1;
            if *len <= MOST_SHORT_MESSAGE && size <= left && Room::Tlvs.fits(left - size) {
                Ok((*len, rest))
            } else {
                Err(ReadFault::Malformed { left: octets.len() })
            }
        }
    }
}

/// The message, and what stands behind it.
#[tactic(auto, unfolding(crate::specs::Reading::short_message_at))]
pub(crate) fn short_message_at(octets: &[u8], left: usize) -> Result<(&[u8], &[u8]), ReadFault>
    ensures gives { Gives (λ x. (x.0.now, x.1.now)) result (short_message_front left octets.now) }
    ensures room { IfOk result (λ x. fits Tlvs (left - (length x.0.now + 1)) ≡ true) }
    ensures no_memory { IfErr result IsOfOctets }
{
    let (len, rest) = message_len_at(octets, left)?;
    let (message, rest) = octets_at(rest, usize::from(len), Alphabet::Any)?;
    Ok((message, rest))
}
