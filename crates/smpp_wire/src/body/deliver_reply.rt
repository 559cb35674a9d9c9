//! The body of deliver_sm_resp (SMPP 3.4, 4.6.2): its message_id is empty, which is one octet 00.

ghost use Rattle.std.specs.Prelude.{◌≡◌, ◌∷◌, [], ◌++◌, IfErr, OnOk, OnErr};
ghost use Rattle.exact_octets.specs.Growth.{Keeps};
ghost use Rattle.exact_octets.specs.Reading.{Gives, IsOfOctets};
ghost use Rattle.smpp_wire.specs.Command.{fields_of};
ghost use Rattle.smpp_wire.specs.Reading.{deliver_reply_at as deliver_reply_front};

use crate::Body;
use exact_octets::{ReadFault, octet_at};
use kn_base::{Memory, Octets};

/// An answer to a message of the centre.
#[tactic(auto, unfolding(crate::specs::Reading::deliver_reply_at))]
pub(crate) fn deliver_reply_at(octets: &[u8]) -> Result<(Body, &[u8]), ReadFault>
    ensures gives { Gives (λ x. (fields_of x.0, x.1.now)) result (deliver_reply_front octets.now) }
    ensures no_memory { IfErr result IsOfOctets }
{
    let (_, rest) = octet_at(octets, 0, 0)?;
    Ok((Body::DeliverReply, rest))
}

/// Puts the body of such an answer last. After `Memory` nothing has changed.
pub(crate) fn put_deliver_reply(into: &mut Octets) -> Result<(), Memory>
    ensures ok { OnOk result (into.new ≡ into.old ++ 0 ∷ []) }
    ensures err { OnErr result (into.new ≡ into.old) }
{
    into.push(0)
}
