//! The entry of kind 08: the URL of a job won't be called.

ghost use Rattle.std.specs.Prelude.{◌≡◌, ◌++◌, OnOk, OnErr};
ghost use Rattle.exact_octets.specs.Growth.{Keeps};
ghost use Rattle.exact_octets.specs.Reading.{Gives, value_of};
ghost use Rattle.gate_entries.specs.Entry.{drop_code, call_dropped_fields};
ghost use Rattle.gate_entries.specs.EntryReading.{drop_causes, drop_cause_at as drop_cause_front, call_dropped_at as call_dropped_front};

use crate::fields::{number_at, put_number};
use exact_octets::{ReadFault, any_octet_at, named};
use kn_base::{Memory, Octets};

/// Why a URL won't be called.
#[derive(Clone, Copy)]
pub enum DropCause {
    /// It is none that can be called.
    BadUrl,
    /// It was tried as often as one may be.
    Tries,
}

/// A job that is given up.
#[derive(Clone, Copy)]
pub struct CallDropped {
    /// The job's number.
    pub job: u64,
    pub cause: DropCause,
}

fn code_of(cause: DropCause) -> u8
    ensures { result ≡ drop_code cause }
{
    match cause {
        DropCause::BadUrl => 0,
        DropCause::Tries => 1,
    }
}

fn drop_cause_of(code: u8) -> Option<DropCause>
    ensures { result ≡ value_of drop_code drop_causes code }
{
    match code {
        0 => Some(DropCause::BadUrl),
        1 => Some(DropCause::Tries),
        _ => None,
    }
}

#[tactic(auto, unfolding(crate::specs::EntryReading::drop_cause_at))]
fn drop_cause_at(octets: &[u8]) -> Result<(DropCause, &[u8]), ReadFault>
    ensures { Gives (λ x. (x.0, x.1.now)) result (drop_cause_front octets.now) }
{
    let (code, rest) = any_octet_at(octets)?;
    named(drop_cause_of(code), rest)
}

/// What stands behind the kind.
#[tactic(auto, unfolding(crate::specs::EntryReading::call_dropped_at))]
pub(crate) fn call_dropped_at(octets: &[u8]) -> Result<(CallDropped, &[u8]), ReadFault>
    ensures { Gives (λ x. (x.0, x.1.now)) result (call_dropped_front octets.now) }
{
    let (job, rest) = number_at(octets)?;
    let (cause, rest) = drop_cause_at(rest)?;
    Ok((CallDropped { job, cause }, rest))
}

/// Puts what stands behind the kind last.
pub(crate) fn put_call_dropped(into: &mut Octets, dropped: &CallDropped) -> Result<(), Memory>
    ensures ok { OnOk result (into.new ≡ into.old ++ call_dropped_fields dropped.now) }
    ensures err { OnErr result (Keeps into.old into.new) }
{
    put_number(into, dropped.job)?;
    into.push(code_of(dropped.cause))
}
