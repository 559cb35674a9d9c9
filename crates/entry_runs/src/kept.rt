//! What is said of an entry that was read.

ghost use Rattle.gate_entries.specs.Entry.{IsEntry};

use exact_octets::RecordFault;
use gate_entries::{
    Acked, Answered, Cause, DropCause, Recorded, Rejected, Reported, entry_size, write_entry,
};
use kn_base::{Memory, Octets, write_hex};
use line_cases::{put_named, put_text};
use sms_record::{Kind, Sms};
use std::alloc::Global;

/// Puts the name of a fault last.
pub fn put_fault(report: &mut Octets, fault: RecordFault) -> Result<(), Memory> {
    match fault {
        RecordFault::Short => report.extend_from_slice(b"short"),
        RecordFault::Malformed { at } => put_named(report, b"malformed ", at as u64),
        RecordFault::Memory => Err(Memory),
    }
}

/// Puts the name of an entry's kind last.
pub fn put_named_kind(report: &mut Octets, entry: &Recorded) -> Result<(), Memory> {
    report.extend_from_slice(match entry {
        Recorded::Accept(_) => b"Accept".as_slice(),
        Recorded::Acked(_) => b"Acked".as_slice(),
        Recorded::Rejected(_) => b"Rejected".as_slice(),
        Recorded::Reported(_) => b"Reported".as_slice(),
        Recorded::Arrived(_) => b"Arrived".as_slice(),
        Recorded::Answered(_) => b"Answered".as_slice(),
        Recorded::Called(_) => b"Called".as_slice(),
        Recorded::CallDropped(_) => b"CallDropped".as_slice(),
    })
}

/// Puts a text last, behind its name.
fn put_named_text(report: &mut Octets, name: &[u8], text: &Octets) -> Result<(), Memory> {
    report.extend_from_slice(name)?;
    put_text(report, text.as_slice())
}

/// Puts the bodies of messages last.
fn put_bodies(report: &mut Octets, parts: &[Sms]) -> Result<(), Memory> {
    put_named(report, b" parts ", parts.len() as u64)?;
    for sms in parts {
        put_named_text(report, b" ", &sms.body)?;
    }
    Ok(())
}

fn put_acked(report: &mut Octets, acked: &Acked) -> Result<(), Memory> {
    put_named(report, b" message ", acked.message)?;
    put_named_text(report, b" smsc ", &acked.smsc)?;
    put_named_text(report, b" foreign ", &acked.foreign)?;
    put_named(report, b" time ", acked.time)
}

fn put_rejected(report: &mut Octets, rejected: &Rejected) -> Result<(), Memory> {
    put_named(report, b" message ", rejected.message)?;
    put_named_text(report, b" smsc ", &rejected.smsc)?;
    match rejected.cause {
        Cause::Centre(code) => put_named(report, b" code ", u64::from(code))?,
        Cause::Expired => report.extend_from_slice(b" expired")?,
    }
    put_named(report, b" time ", rejected.time)
}

fn name_of_kind(kind: Kind) -> &'static [u8] {
    match kind {
        Kind::Delivered => b" delivered",
        Kind::Undelivered => b" undelivered",
        Kind::Buffered => b" buffered",
        Kind::Sent => b" sent",
        Kind::Refused => b" refused",
    }
}

fn put_reported(report: &mut Octets, reported: &Reported) -> Result<(), Memory> {
    put_named_text(report, b" smsc ", &reported.smsc)?;
    put_named_text(report, b" foreign ", &reported.foreign)?;
    report.extend_from_slice(name_of_kind(reported.kind))?;
    put_named_text(report, b" text ", &reported.text)?;
    put_named(report, b" time ", reported.time)
}

fn put_answered(report: &mut Octets, answered: &Answered) -> Result<(), Memory> {
    for arrival in answered.arrivals.as_slice() {
        put_named(report, b" arrival ", *arrival)?;
    }
    put_named(report, b" time ", answered.time)?;
    put_bodies(report, answered.parts.as_slice())
}

fn name_of_cause(cause: DropCause) -> &'static [u8] {
    match cause {
        DropCause::BadUrl => b" bad URL",
        DropCause::Tries => b" tries",
    }
}

/// Puts what a job came to last: its number, and a status or a cause.
fn put_job(report: &mut Octets, job: u64, status: Option<u16>, cause: &[u8]) -> Result<(), Memory> {
    put_named(report, b" job ", job)?;
    match status {
        Some(status) => put_named(report, b" status ", u64::from(status)),
        None => report.extend_from_slice(cause),
    }
}

/// Puts a time and messages last.
fn put_taken(report: &mut Octets, time: u64, parts: &[Sms]) -> Result<(), Memory> {
    put_named(report, b" time ", time)?;
    put_bodies(report, parts)
}

/// Puts an SMSC id and a message last.
fn put_arrived(report: &mut Octets, smsc: &Octets, sms: &Sms) -> Result<(), Memory> {
    put_named_text(report, b" smsc ", smsc)?;
    put_named_text(report, b" body ", &sms.body)
}

/// Puts what an entry has last.
fn put_fields(report: &mut Octets, entry: &Recorded) -> Result<(), Memory> {
    match entry {
        Recorded::Accept(accept) => put_taken(report, accept.time, accept.parts.as_slice()),
        Recorded::Acked(acked) => put_acked(report, acked),
        Recorded::Rejected(rejected) => put_rejected(report, rejected),
        Recorded::Reported(reported) => put_reported(report, reported),
        Recorded::Arrived(arrived) => put_arrived(report, &arrived.smsc, &arrived.sms),
        Recorded::Answered(answered) => put_answered(report, answered),
        Recorded::Called(called) => put_job(report, called.job, Some(called.status), b""),
        Recorded::CallDropped(dropped) => {
            put_job(report, dropped.job, None, name_of_cause(dropped.cause))
        }
    }
}

/// Puts last whether an entry is written as these octets.
fn put_written(
    alloc: Global,
    entry: &Recorded,
    octets: &[u8],
    report: &mut Octets,
) -> Result<(), Memory>
    requires { IsEntry entry.now }
{
    let mut written = Octets::new(alloc);
    write_entry(&mut written, entry)?;
    if written.as_slice() == octets {
        return report.extend_from_slice(b" | written again");
    }
    report.extend_from_slice(b" | written ")?;
    write_hex(report, written.as_slice())
}

/// Puts last what an entry is, in short or with its fields, how many octets it says to have, and whether it is written as those that it
/// was read of.
pub fn put_kept(
    alloc: Global,
    entry: &Recorded,
    octets: &[u8],
    in_short: bool,
    report: &mut Octets,
) -> Result<(), Memory>
    requires { IsEntry entry.now }
{
    put_named_kind(report, entry)?;
    if !in_short {
        put_fields(report, entry)?;
    }
    put_named(report, b" | octets ", entry_size(entry))?;
    put_written(alloc, entry, octets, report)
}
