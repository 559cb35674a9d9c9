//! The body of submit_sm_resp (SMPP 3.4, 4.4.2).

ghost use Rattle.std.specs.Prelude.{◌≡◌, ◌++◌, IfErr, OnOk, OnErr};
ghost use Rattle.exact_octets.specs.Growth.{Keeps};
ghost use Rattle.exact_octets.specs.Reading.{Gives, IsOfOctets};
ghost use Rattle.smpp_wire.specs.Command.{fields_of};
ghost use Rattle.smpp_wire.specs.Grammar.{ended};
ghost use Rattle.smpp_wire.specs.Reading.{submit_reply_at as submit_reply_front};

use crate::Body;
use crate::room::Room;
use crate::text::{Sizes, put_text, text_at};
use exact_octets::ReadFault;
use kn_base::{Memory, Octets};

/// An answer to a message whose body fills `left` octets.
#[tactic(auto, unfolding(crate::specs::Reading::submit_reply_at))]
pub(crate) fn submit_reply_at(octets: &[u8], left: usize) -> Result<(Body, &[u8]), ReadFault>
    ensures gives { Gives (λ x. (fields_of x.0, x.1.now)) result (submit_reply_front left octets.now) }
    ensures no_memory { IfErr result IsOfOctets }
{
    if left == 0 {
        return Ok((Body::Nothing, octets));
    }
    let (message_id, rest) = text_at(octets, Sizes::up_to(65), Room::Between(0, 0), left)?;
    Ok((Body::SubmitReply { message_id }, rest))
}

/// Puts the body of an answer to a message last. After `Memory` the old octets still stand first.
pub(crate) fn put_submit_reply(into: &mut Octets, message_id: &[u8]) -> Result<(), Memory>
    ensures ok { OnOk result (into.new ≡ into.old ++ ended message_id.now) }
    ensures err { OnErr result (Keeps into.old into.new) }
{
    put_text(into, message_id)
}
