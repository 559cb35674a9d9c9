//! The entry of kind 05: a message came from a centre.

ghost use Rattle.std.specs.Prelude.{◌≡◌, ◌++◌, OnOk, OnErr};
ghost use Rattle.exact_octets.specs.Growth.{Keeps};
ghost use Rattle.exact_octets.specs.Reading.{Gives};
ghost use Rattle.gate_entries.specs.Entry.{IsArrived, arrived_fields};
ghost use Rattle.gate_entries.specs.EntryReading.{arrived_at as arrived_front};

use crate::fields::text_at;
use exact_octets::{ReadFault, put_long};
use kn_base::{Memory, Octets};
use sms_record::{Sms, put_sms, sms_at};
use std::alloc::Global;

/// A message that came from a centre.
#[derive(Drop)]
pub struct Arrived {
    /// The id of the link on which it came. At most 2,048 octets.
    pub smsc: Octets,
    pub sms: Sms,
}

/// What stands behind the kind.
#[tactic(auto, unfolding(crate::specs::EntryReading::arrived_at))]
pub(crate) fn arrived_at(alloc: Global, octets: &[u8]) -> Result<(Arrived, &[u8]), ReadFault>
    ensures { Gives (λ x. (x.0, x.1.now)) result (arrived_front octets.now) }
{
    let (smsc, rest) = text_at(alloc, octets)?;
    let (sms, rest) = sms_at(alloc, rest)?;
    Ok((Arrived { smsc, sms }, rest))
}

/// Puts what stands behind the kind last.
pub(crate) fn put_arrived(into: &mut Octets, arrived: &Arrived) -> Result<(), Memory>
    requires { IsArrived arrived.now }
    ensures ok { OnOk result (into.new ≡ into.old ++ arrived_fields arrived.now) }
    ensures err { OnErr result (Keeps into.old into.new) }
{
    put_long(into, arrived.smsc.as_slice())?;
    put_sms(into, &arrived.sms)
}
