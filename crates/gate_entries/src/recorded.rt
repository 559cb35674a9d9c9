//! The entries that are kept, out of their octets, and as octets.

ghost use Rattle.std.specs.Prelude.{◌≡◌, ◌++◌, OnOk, OnErr};
ghost use Rattle.exact_octets.specs.Fronts.{ReadsAll};
ghost use Rattle.exact_octets.specs.Growth.{Keeps};
ghost use Rattle.exact_octets.specs.Reading.{Gives, value_of};
ghost use Rattle.gate_entries.specs.Entry.{IsEntry, entry_octets, parts_of, ended_job};
ghost use Rattle.gate_entries.specs.EntryReading.{entry_kinds, entry_code, kind_of_entry, fields_of, kind_at as kind_front, fields_at as fields_front, entry_at as entry_front};
ghost use Rattle.gate_entries.specs.declared.recorded.EntryKind.{EntryKind};

use crate::accept::{accept_fields_at, put_accept_fields};
use crate::acked::{acked_at, put_acked};
use crate::answered::{answered_at, put_answered};
use crate::arrived::{arrived_at, put_arrived};
use crate::call_dropped::{call_dropped_at, put_call_dropped};
use crate::called::{called_at, put_called};
use crate::rejected::{put_rejected, rejected_at};
use crate::reported::{put_reported, reported_at};
use crate::{
    Accept, Acked, Answered, Arrived, CallDropped, Called, RecordFault, Rejected, Reported,
};
use exact_octets::{ReadFault, any_octet_at, named, told_all};
use kn_base::{Memory, Octets};
use sms_record::Sms;
use std::alloc::Global;

/// An entry of the gate's store (docs/FORMATS.md, "Entries").
#[derive(Drop)]
pub enum Recorded {
    /// Messages were taken together.
    Accept(Accept),
    /// A centre took a message.
    Acked(Acked),
    /// A message won't be sent.
    Rejected(Rejected),
    /// A centre said what became of a message that it took.
    Reported(Reported),
    /// A message came from a centre.
    Arrived(Arrived),
    /// Arrivals were dealt with, and these are their replies.
    Answered(Answered),
    /// The URL of a job was called.
    Called(Called),
    /// The URL of a job won't be called.
    CallDropped(CallDropped),
}

impl Recorded {
    /// The messages that it hands in.
    pub fn parts(&self) -> &[Sms]
        ensures { result.now ≡ parts_of self.now }
    {
        match self {
            Recorded::Accept(accept) => accept.parts.as_slice(),
            Recorded::Answered(answered) => answered.parts.as_slice(),
            _ => &[],
        }
    }

    /// The job that it ends, where it ends one.
    pub fn ended_job(&self) -> Option<u64>
        ensures { result ≡ ended_job self.now }
    {
        match self {
            Recorded::Called(called) => Some(called.job),
            Recorded::CallDropped(dropped) => Some(dropped.job),
            _ => None,
        }
    }
}

/// The kinds of entries, each by its first octet.
#[derive(Clone, Copy)]
enum EntryKind {
    Accept,
    Acked,
    Rejected,
    Reported,
    Arrived,
    Answered,
    Called,
    CallDropped,
}

/// The octet of a kind.
fn code_of(kind: EntryKind) -> u8
    ensures { result ≡ entry_code kind }
{
    match kind {
        EntryKind::Accept => 1,
        EntryKind::Acked => 2,
        EntryKind::Rejected => 3,
        EntryKind::Reported => 4,
        EntryKind::Arrived => 5,
        EntryKind::Answered => 6,
        EntryKind::Called => 7,
        EntryKind::CallDropped => 8,
    }
}

fn kind_of(code: u8) -> Option<EntryKind>
    ensures { result ≡ value_of entry_code entry_kinds code }
{
    match code {
        1 => Some(EntryKind::Accept),
        2 => Some(EntryKind::Acked),
        3 => Some(EntryKind::Rejected),
        4 => Some(EntryKind::Reported),
        5 => Some(EntryKind::Arrived),
        6 => Some(EntryKind::Answered),
        7 => Some(EntryKind::Called),
        8 => Some(EntryKind::CallDropped),
        _ => None,
    }
}

/// The kind at the front.
#[tactic(auto, unfolding(crate::specs::EntryReading::kind_at))]
fn kind_at(octets: &[u8]) -> Result<(EntryKind, &[u8]), ReadFault>
    ensures { Gives (λ x. (x.0, x.1.now)) result (kind_front octets.now) }
{
    let (code, rest) = any_octet_at(octets)?;
    named(kind_of(code), rest)
}

/// The octet of an entry's kind.
fn code_of_entry(entry: &Recorded) -> u8
    ensures { result ≡ entry_code (kind_of_entry entry.now) }
{
    code_of(match entry {
        Recorded::Accept(_) => EntryKind::Accept,
        Recorded::Acked(_) => EntryKind::Acked,
        Recorded::Rejected(_) => EntryKind::Rejected,
        Recorded::Reported(_) => EntryKind::Reported,
        Recorded::Arrived(_) => EntryKind::Arrived,
        Recorded::Answered(_) => EntryKind::Answered,
        Recorded::Called(_) => EntryKind::Called,
        Recorded::CallDropped(_) => EntryKind::CallDropped,
    })
}

/// What stands behind a kind.
fn fields_at(alloc: Global, octets: &[u8], kind: EntryKind) -> Result<(Recorded, &[u8]), ReadFault>
    ensures { Gives (λ x. (x.0, x.1.now)) result (fields_front kind octets.now) }
{
    match kind {
        EntryKind::Accept => {
            let (accept, rest) = accept_fields_at(alloc, octets)?;
            Ok((Recorded::Accept(accept), rest))
        }
        EntryKind::Acked => {
            let (acked, rest) = acked_at(alloc, octets)?;
            Ok((Recorded::Acked(acked), rest))
        }
        EntryKind::Rejected => {
            let (rejected, rest) = rejected_at(alloc, octets)?;
            Ok((Recorded::Rejected(rejected), rest))
        }
        EntryKind::Reported => {
            let (reported, rest) = reported_at(alloc, octets)?;
            Ok((Recorded::Reported(reported), rest))
        }
        EntryKind::Arrived => {
            let (arrived, rest) = arrived_at(alloc, octets)?;
            Ok((Recorded::Arrived(arrived), rest))
        }
        EntryKind::Answered => {
            let (answered, rest) = answered_at(alloc, octets)?;
            Ok((Recorded::Answered(answered), rest))
        }
        EntryKind::Called => {
            let (called, rest) = called_at(octets)?;
            Ok((Recorded::Called(called), rest))
        }
        EntryKind::CallDropped => {
            let (dropped, rest) = call_dropped_at(octets)?;
            Ok((Recorded::CallDropped(dropped), rest))
        }
    }
}

/// The entry at the front.
#[tactic(auto, unfolding(crate::specs::EntryReading::entry_at))]
fn entry_at(alloc: Global, octets: &[u8]) -> Result<(Recorded, &[u8]), ReadFault>
    ensures { Gives (λ x. (x.0, x.1.now)) result (entry_front octets.now) }
{
    let (kind, rest) = kind_at(octets)?;
    let (entry, rest) = fields_at(alloc, rest, kind)?;
    Ok((entry, rest))
}

/// The entry that all of the octets are (docs/FORMATS.md, "Entries").
///
/// `Short` where the octets are a proper front of an entry. `Malformed { at }` where the first `at` octets begin an
/// entry, or are one, and the first `at + 1` begin none: an octet behind an entry is malformed. `Memory`.
pub fn read_entry(alloc: Global, octets: &[u8]) -> Result<Recorded, RecordFault>
    ensures { ReadsAll IsEntry entry_octets octets.now result }
{
    told_all(octets, entry_at(alloc, octets))
}

/// Puts what stands behind the kind last.
fn put_fields(into: &mut Octets, entry: &Recorded) -> Result<(), Memory>
    requires { IsEntry entry.now }
    ensures ok { OnOk result (into.new ≡ into.old ++ fields_of entry.now) }
    ensures err { OnErr result (Keeps into.old into.new) }
{
    match entry {
        Recorded::Accept(accept) => put_accept_fields(into, accept),
        Recorded::Acked(acked) => put_acked(into, acked),
        Recorded::Rejected(rejected) => put_rejected(into, rejected),
        Recorded::Reported(reported) => put_reported(into, reported),
        Recorded::Arrived(arrived) => put_arrived(into, arrived),
        Recorded::Answered(answered) => put_answered(into, answered),
        Recorded::Called(called) => put_called(into, called),
        Recorded::CallDropped(dropped) => put_call_dropped(into, dropped),
    }
}

/// Puts an entry last, or a front of it.
fn put_entry(into: &mut Octets, entry: &Recorded) -> Result<(), Memory>
    requires { IsEntry entry.now }
    ensures ok { OnOk result (into.new ≡ into.old ++ entry_octets entry.now) }
    ensures err { OnErr result (Keeps into.old into.new) }
{
    into.push(code_of_entry(entry))?;
    put_fields(into, entry)
}

/// Puts an entry last (docs/FORMATS.md, "Entries"). After `Memory` nothing has changed.
pub fn write_entry(into: &mut Octets, entry: &Recorded) -> Result<(), Memory>
    requires { IsEntry entry.now }
    ensures ok { OnOk result (into.new ≡ into.old ++ entry_octets entry.now) }
    ensures err { OnErr result (into.new ≡ into.old) }
{
    let len = into.len();
    let put = put_entry(into, entry);
    if put.is_err() {
        into.truncate(len);
    }
    put
}
