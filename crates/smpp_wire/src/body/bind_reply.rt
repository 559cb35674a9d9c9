//! The body of bind_transceiver_resp (SMPP 3.4, 4.1.6).

ghost use Rattle.std.specs.Prelude.{◌≡◌, ◌++◌, IfErr, OnOk, OnErr};
ghost use Rattle.exact_octets.specs.Growth.{Keeps};
ghost use Rattle.exact_octets.specs.Reading.{Gives, IsOfOctets};
ghost use Rattle.smpp_wire.specs.Command.{fields_of};
ghost use Rattle.smpp_wire.specs.Grammar.{ended};
ghost use Rattle.smpp_wire.specs.Reading.{bind_reply_at as bind_reply_front};

use crate::Body;
use crate::room::Room;
use crate::text::{Sizes, put_text, text_at};
use crate::tlv::tlvs_at;
use exact_octets::ReadFault;
use kn_base::{Memory, Octets};

/// An answer to a bind whose body fills `left` octets.
#[tactic(auto, unfolding(crate::specs::Reading::bind_reply_at))]
pub(crate) fn bind_reply_at(octets: &[u8], left: usize) -> Result<(Body, &[u8]), ReadFault>
    ensures gives { Gives (λ x. (fields_of x.0, x.1.now)) result (bind_reply_front left octets.now) }
    ensures no_memory { IfErr result IsOfOctets }
{
    if left == 0 {
        return Ok((Body::Nothing, octets));
    }
    let (system_id, rest) = text_at(octets, Sizes::up_to(16), Room::Tlvs, left)?;
    let (tlvs, rest) = tlvs_at(rest, left.saturating_sub(system_id.len() + 1))?;
    Ok((Body::BindReply { system_id, tlvs }, rest))
}

/// Puts the body of an answer to a bind last. After `Memory` the old octets still stand first.
pub(crate) fn put_bind_reply(into: &mut Octets, system_id: &[u8], tlvs: &[u8]) -> Result<(), Memory>
    ensures ok { OnOk result (into.new ≡ into.old ++ (ended system_id.now ++ tlvs.now)) }
    ensures err { OnErr result (Keeps into.old into.new) }
{
    put_text(into, system_id)?;
    into.extend_from_slice(tlvs)
}
