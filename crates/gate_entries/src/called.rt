//! The entry of kind 07: the URL of a job was called.

ghost use Rattle.std.specs.Prelude.{◌≡◌, ◌++◌, OnOk, OnErr};
ghost use Rattle.exact_octets.specs.Growth.{Keeps};
ghost use Rattle.exact_octets.specs.Reading.{Gives};
ghost use Rattle.gate_entries.specs.Entry.{called_fields};
ghost use Rattle.gate_entries.specs.EntryReading.{called_at as called_front};

use crate::fields::{number_at, put_number};
use exact_octets::{Numbers, ReadFault};
use kn_base::{Memory, Octets};

/// A job that is done.
#[derive(Clone, Copy)]
pub struct Called {
    /// The job's number.
    pub job: u64,
    /// The status that was answered (RFC 9110, section 15).
    pub status: u16,
}

/// What stands behind the kind.
#[tactic(auto, unfolding(crate::specs::EntryReading::called_at))]
pub(crate) fn called_at(octets: &[u8]) -> Result<(Called, &[u8]), ReadFault>
    ensures { Gives (λ x. (x.0, x.1.now)) result (called_front octets.now) }
{
    let (job, rest) = number_at(octets)?;
    let (status, rest) = exact_octets::number_at(
        rest,
        2,
        Numbers::from_to(0, u64::from(u16::MAX)),
    )?;
    let called = Called {
        job,
        status: status as u16,
    };
    Ok((called, rest))
}

/// Puts what stands behind the kind last.
pub(crate) fn put_called(into: &mut Octets, called: &Called) -> Result<(), Memory>
    ensures ok { OnOk result (into.new ≡ into.old ++ called_fields called.now) }
    ensures err { OnErr result (Keeps into.old into.new) }
{
    put_number(into, called.job)?;
    into.extend_from_slice(&called.status.to_be_bytes())
}
