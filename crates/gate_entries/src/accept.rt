//! The entry of kind 01: messages that were taken together, and when.

ghost use Rattle.std.specs.Prelude.{◌≡◌, ◌+◌, ◌++◌, length, OnOk, OnErr};
ghost use Rattle.exact_octets.specs.Fronts.{ReadsAll};
ghost use Rattle.exact_octets.specs.Growth.{Keeps};
ghost use Rattle.exact_octets.specs.Reading.{Gives};
ghost use Rattle.gate_entries.specs.Entry.{IsAccept, accept_fields, accept_octets, accept_size};
ghost use Rattle.gate_entries.specs.EntryReading.{accept_at as accept_front, accept_fields_at as accept_fields_front};

use crate::RecordFault;
use crate::fields::{number_at, put_number};
use crate::messages::{messages_at, put_messages};
use exact_octets::{ReadFault, octet_at, told_all};
use kn_base::{Items, Memory, Octets};
use sms_record::Sms;
use std::alloc::Global;

/// The octet of this kind of entry.
const KIND: u8 = 1;

/// Messages that were taken at one time.
#[derive(Drop)]
pub struct Accept {
    /// When they were taken, in Unix seconds.
    pub time: u64,
    /// 1 to 5,000 messages, in the order in which they were taken.
    pub parts: Items<Sms>,
}

/// What stands behind the kind.
#[tactic(auto, unfolding(crate::specs::EntryReading::accept_fields_at))]
pub(crate) fn accept_fields_at(alloc: Global, octets: &[u8]) -> Result<(Accept, &[u8]), ReadFault>
    ensures { Gives (λ x. (x.0, x.1.now)) result (accept_fields_front octets.now) }
{
    let (time, rest) = number_at(octets)?;
    let (parts, rest) = messages_at(alloc, rest, 1)?;
    Ok((Accept { time, parts }, rest))
}

/// The entry at the front.
#[tactic(auto, unfolding(crate::specs::EntryReading::accept_at))]
fn accept_at(alloc: Global, octets: &[u8]) -> Result<(Accept, &[u8]), ReadFault>
    ensures { Gives (λ x. (x.0, x.1.now)) result (accept_front octets.now) }
{
    let (_, rest) = octet_at(octets, KIND, KIND)?;
    let (accept, rest) = accept_fields_at(alloc, rest)?;
    Ok((accept, rest))
}

/// The entry of this kind that all of the octets are (docs/FORMATS.md, "Entries").
///
/// `Short` where the octets are a proper front of one. `Malformed { at }` where the first `at` octets begin one, or are
/// one, and the first `at + 1` begin none: an octet behind an entry is malformed. `Memory`.
pub fn read_accept(alloc: Global, octets: &[u8]) -> Result<Accept, RecordFault>
    ensures { ReadsAll IsAccept accept_octets octets.now result }
{
    told_all(octets, accept_at(alloc, octets))
}

/// Puts what stands behind the kind last.
pub(crate) fn put_accept_fields(into: &mut Octets, accept: &Accept) -> Result<(), Memory>
    requires { IsAccept accept.now }
    ensures ok { OnOk result (into.new ≡ into.old ++ accept_fields accept.now) }
    ensures err { OnErr result (Keeps into.old into.new) }
{
    put_number(into, accept.time)?;
    put_messages(into, accept.parts.as_slice())
}

fn put_accept(into: &mut Octets, accept: &Accept) -> Result<(), Memory>
    requires { IsAccept accept.now }
    ensures ok { OnOk result (into.new ≡ into.old ++ accept_octets accept.now) }
    ensures err { OnErr result (Keeps into.old into.new) }
{
    into.push(KIND)?;
    put_accept_fields(into, accept)
}

/// Puts the entry last (docs/FORMATS.md, "Entries"). After `Memory` nothing has changed.
pub fn write_accept(into: &mut Octets, accept: &Accept) -> Result<(), Memory>
    requires { IsAccept accept.now }
    ensures ok { OnOk result (into.new ≡ into.old ++ accept_octets accept.now) }
    ensures size { OnOk result (length into.new ≡ length into.old + accept_size accept.now) }
    ensures err { OnErr result (into.new ≡ into.old) }
{
    let len = into.len();
    let put = put_accept(into, accept);
    if put.is_err() {
        into.truncate(len);
    }
    put
}
