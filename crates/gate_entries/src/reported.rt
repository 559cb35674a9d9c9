//! The entry of kind 04: a centre said what became of a message that it took.

ghost use Rattle.std.specs.Prelude.{◌≡◌, ◌++◌, OnOk, OnErr};
ghost use Rattle.exact_octets.specs.Growth.{Keeps};
ghost use Rattle.exact_octets.specs.Reading.{Gives, value_of};
ghost use Rattle.gate_entries.specs.Entry.{IsReported, kind_value, reported_fields};
ghost use Rattle.gate_entries.specs.EntryReading.{report_kinds, report_kind_at as report_kind_front, reported_at as reported_front};

use crate::fields::{ids_at, number_at, put_ids, put_number, text_at};
use exact_octets::{ReadFault, any_octet_at, named, put_long};
use kn_base::{Memory, Octets};
use sms_record::Kind;
use std::alloc::Global;

/// What a centre said of a message.
#[derive(Drop)]
pub struct Reported {
    /// The id of the centre's link. At most 2,048 octets.
    pub smsc: Octets,
    /// The id that the centre gave the message. At most 2,048 octets.
    pub foreign: Octets,
    /// What became of the message: delivered, undelivered or buffered.
    pub kind: Kind,
    /// The text of the report. At most 2,048 octets.
    pub text: Octets,
    /// When the report came, in Unix seconds.
    pub time: u64,
}

/// The octet of a kind of reports: its bit in a mask.
fn value_of_kind(kind: Kind) -> u8
    ensures { result ≡ kind_value kind }
{
    match kind {
        Kind::Delivered => 1,
        Kind::Undelivered => 2,
        Kind::Buffered => 4,
        Kind::Sent => 8,
        Kind::Refused => 16,
    }
}

/// The kinds that a centre can report.
fn report_kind_of(code: u8) -> Option<Kind>
    ensures { result ≡ value_of kind_value report_kinds code }
{
    match code {
        1 => Some(Kind::Delivered),
        2 => Some(Kind::Undelivered),
        4 => Some(Kind::Buffered),
        _ => None,
    }
}

#[tactic(auto, unfolding(crate::specs::EntryReading::report_kind_at))]
fn report_kind_at(octets: &[u8]) -> Result<(Kind, &[u8]), ReadFault>
    ensures { Gives (λ x. (x.0, x.1.now)) result (report_kind_front octets.now) }
{
    let (code, rest) = any_octet_at(octets)?;
    named(report_kind_of(code), rest)
}

/// What stands behind the kind.
#[tactic(auto, unfolding(crate::specs::EntryReading::reported_at))]
pub(crate) fn reported_at(alloc: Global, octets: &[u8]) -> Result<(Reported, &[u8]), ReadFault>
    ensures { Gives (λ x. (x.0, x.1.now)) result (reported_front octets.now) }
{
    let ((smsc, foreign), rest) = ids_at(alloc, octets)?;
    let (kind, rest) = report_kind_at(rest)?;
    let (text, rest) = text_at(alloc, rest)?;
    let (time, rest) = number_at(rest)?;
    let reported = Reported {
        smsc,
        foreign,
        kind,
        text,
        time,
    };
    Ok((reported, rest))
}

/// Puts what stands behind the kind last.
pub(crate) fn put_reported(into: &mut Octets, reported: &Reported) -> Result<(), Memory>
    requires { IsReported reported.now }
    ensures ok { OnOk result (into.new ≡ into.old ++ reported_fields reported.now) }
    ensures err { OnErr result (Keeps into.old into.new) }
{
    put_ids(into, reported.smsc.as_slice(), reported.foreign.as_slice())?;
    into.push(value_of_kind(reported.kind))?;
    put_long(into, reported.text.as_slice())?;
    put_number(into, reported.time)
}
