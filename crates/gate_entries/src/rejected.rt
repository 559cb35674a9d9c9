//! The entry of kind 03: a message won't be sent.

ghost use Rattle.std.specs.Prelude.{◌≡◌, ◌++◌, OnOk, OnErr};
ghost use Rattle.exact_octets.specs.Growth.{Keeps};
ghost use Rattle.exact_octets.specs.Reading.{Gives};
ghost use Rattle.gate_entries.specs.Entry.{IsRejected, rejected_fields};
ghost use Rattle.gate_entries.specs.EntryReading.{rejected_at as rejected_front};

use crate::Cause;
use crate::cause::{cause_at, put_cause};
use crate::fields::{number_at, put_number, text_at};
use exact_octets::{ReadFault, put_long};
use kn_base::{Memory, Octets};
use std::alloc::Global;

/// A message that won't be sent, and why.
#[derive(Drop)]
pub struct Rejected {
    /// The message's number.
    pub message: u64,
    /// The id of the centre's link. At most 2,048 octets.
    pub smsc: Octets,
    /// Why it won't be sent.
    pub cause: Cause,
    /// When that was known, in Unix seconds.
    pub time: u64,
}

/// What stands behind the kind.
#[tactic(auto, unfolding(crate::specs::EntryReading::rejected_at))]
pub(crate) fn rejected_at(alloc: Global, octets: &[u8]) -> Result<(Rejected, &[u8]), ReadFault>
    ensures { Gives (λ x. (x.0, x.1.now)) result (rejected_front octets.now) }
{
    let (message, rest) = number_at(octets)?;
    let (smsc, rest) = text_at(alloc, rest)?;
    let (cause, rest) = cause_at(rest)?;
    let (time, rest) = number_at(rest)?;
    let rejected = Rejected {
        message,
        smsc,
        cause,
        time,
    };
    Ok((rejected, rest))
}

/// Puts what stands behind the kind last.
pub(crate) fn put_rejected(into: &mut Octets, rejected: &Rejected) -> Result<(), Memory>
    requires { IsRejected rejected.now }
    ensures ok { OnOk result (into.new ≡ into.old ++ rejected_fields rejected.now) }
    ensures err { OnErr result (Keeps into.old into.new) }
{
    put_number(into, rejected.message)?;
    put_long(into, rejected.smsc.as_slice())?;
    put_cause(into, rejected.cause)?;
    put_number(into, rejected.time)
}
