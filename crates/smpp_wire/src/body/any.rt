//! The body of a command that has no row: any octets.

ghost use Rattle.std.specs.Prelude.{◌≡◌, ◌++◌, IfErr, OnOk, OnErr};
ghost use Rattle.exact_octets.specs.Reading.{Gives, IsOfOctets};
ghost use Rattle.smpp_wire.specs.Command.{fields_of};
ghost use Rattle.smpp_wire.specs.Reading.{any_body_at as any_body_front};

use crate::Body;
use exact_octets::{Alphabet, ReadFault, octets_at};
use kn_base::{Memory, Octets};

/// A body of `left` octets.
#[tactic(auto, unfolding(crate::specs::Reading::any_body_at))]
pub(crate) fn any_body_at(octets: &[u8], left: usize) -> Result<(Body, &[u8]), ReadFault>
    ensures gives { Gives (λ x. (fields_of x.0, x.1.now)) result (any_body_front left octets.now) }
    ensures no_memory { IfErr result IsOfOctets }
{
    let (body, rest) = octets_at(octets, left, Alphabet::Any)?;
    Ok((Body::Any(body), rest))
}

/// Puts a body last. After `Memory` nothing has changed.
pub(crate) fn put_any_body(into: &mut Octets, body: &[u8]) -> Result<(), Memory>
    ensures ok { OnOk result (into.new ≡ into.old ++ body.now) }
    ensures err { OnErr result (into.new ≡ into.old) }
{
    into.extend_from_slice(body)
}
