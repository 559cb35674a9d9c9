//! The entry of kind 02: a centre took a message.

ghost use Rattle.std.specs.Prelude.{◌≡◌, ◌++◌, OnOk, OnErr};
ghost use Rattle.exact_octets.specs.Growth.{Keeps};
ghost use Rattle.exact_octets.specs.Reading.{Gives};
ghost use Rattle.gate_entries.specs.Entry.{IsAcked, acked_fields};
ghost use Rattle.gate_entries.specs.EntryReading.{acked_at as acked_front};

use crate::fields::{ids_at, number_at, put_ids, put_number};
use exact_octets::ReadFault;
use kn_base::{Memory, Octets};
use std::alloc::Global;

/// A message that a centre took.
#[derive(Drop)]
pub struct Acked {
    /// The message's number.
    pub message: u64,
    /// The id of the centre's link. At most 2,048 octets.
    pub smsc: Octets,
    /// The id that the centre gave the message, or empty. At most 2,048 octets.
    pub foreign: Octets,
    /// When the centre took it, in Unix seconds.
    pub time: u64,
}

/// What stands behind the kind.
#[tactic(auto, unfolding(crate::specs::EntryReading::acked_at))]
pub(crate) fn acked_at(alloc: Global, octets: &[u8]) -> Result<(Acked, &[u8]), ReadFault>
    ensures { Gives (λ x. (x.0, x.1.now)) result (acked_front octets.now) }
{
    let (message, rest) = number_at(octets)?;
    let ((smsc, foreign), rest) = ids_at(alloc, rest)?;
    let (time, rest) = number_at(rest)?;
    let acked = Acked {
        message,
        smsc,
        foreign,
        time,
    };
    Ok((acked, rest))
}

/// Puts what stands behind the kind last.
pub(crate) fn put_acked(into: &mut Octets, acked: &Acked) -> Result<(), Memory>
    requires { IsAcked acked.now }
    ensures ok { OnOk result (into.new ≡ into.old ++ acked_fields acked.now) }
    ensures err { OnErr result (Keeps into.old into.new) }
{
    put_number(into, acked.message)?;
    put_ids(into, acked.smsc.as_slice(), acked.foreign.as_slice())?;
    put_number(into, acked.time)
}
