//! What a centre says.

use crate::octets_in;
use crate::say::core_of;
use kn_base::{Memory, Octets, write_hex};
use line_cases::{cut_item, octets_of, put_named, put_new, put_text};
use link_core::{Framed, Heard, LinkCore, Verdict};
use sms_lines::put_sms;
use sms_record::Kind;
use std::alloc::Global;

/// Puts a name last, and a tag.
fn put_tag(report: &mut Octets, name: &[u8], tag: u32) -> Result<(), Memory> {
    report.extend_from_slice(name)?;
    put_named(report, b" ", u64::from(tag))
}

fn put_verdict(report: &mut Octets, verdict: &Verdict) -> Result<(), Memory> {
    match verdict {
        Verdict::Good { foreign } => {
            report.extend_from_slice(b" good [")?;
            put_text(report, foreign.as_slice())?;
            report.push(b']')
        }
        Verdict::Temporary { code } => put_named(report, b" temporary ", u64::from(*code)),
        Verdict::Permanent { code } => put_named(report, b" permanent ", u64::from(*code)),
    }
}

/// Puts last what a report says: what became of the message, the centre's id of it, and the text.
fn put_report(report: &mut Octets, kind: Kind, foreign: &[u8], text: &[u8]) -> Result<(), Memory> {
    report.extend_from_slice(match kind {
        Kind::Delivered => b" delivered [",
        Kind::Undelivered => b" undelivered [",
        Kind::Buffered => b" buffered [",
        Kind::Sent | Kind::Refused => b" of no report [",
    })?;
    put_text(report, foreign)?;
    report.extend_from_slice(b"] [")?;
    put_text(report, text)?;
    report.push(b']')
}

/// Puts last what was heard.
fn put_heard(report: &mut Octets, heard: &Heard) -> Result<(), Memory> {
    match heard {
        Heard::Login { tag, code } => {
            put_tag(report, b"login", *tag)?;
            put_named(report, b" code ", u64::from(*code))
        }
        Heard::Reply { tag, verdict } => {
            put_tag(report, b"reply", *tag)?;
            put_verdict(report, verdict)
        }
        Heard::Message { tag, sms } => {
            put_tag(report, b"message", *tag)?;
            put_sms(report, b":", sms)
        }
        Heard::Report {
            tag,
            foreign,
            kind,
            text,
        } => {
            put_tag(report, b"report", *tag)?;
            put_report(report, *kind, foreign.as_slice(), text.as_slice())
        }
        Heard::Keep { tag } => put_tag(report, b"keep", *tag),
        Heard::KeepReply { tag } => put_tag(report, b"keep reply", *tag),
        Heard::Bye { tag } => put_tag(report, b"bye", *tag),
        Heard::ByeReply { tag } => put_tag(report, b"bye reply", *tag),
        Heard::Nack { tag, code } => {
            put_tag(report, b"nack", *tag)?;
            put_named(report, b" code ", u64::from(*code))
        }
        Heard::Strange { tag, id } => {
            put_tag(report, b"strange", *tag)?;
            report.extend_from_slice(b" id ")?;
            write_hex(report, &id.to_be_bytes())
        }
    }
}

/// Puts last what a core reads of octets.
fn put_read<C: LinkCore>(
    alloc: Global,
    core: &C,
    octets: &[u8],
    report: &mut Octets,
) -> Result<(), Memory> {
    match core.read(alloc, octets)? {
        Framed::Whole { heard, len } => {
            put_named(report, b"whole ", len as u64)?;
            report.extend_from_slice(b" | ")?;
            put_heard(report, &heard)
        }
        Framed::NeedMore => report.extend_from_slice(b"more"),
        Framed::Bad { at, code } => {
            put_named(report, b"bad at ", at as u64)?;
            put_named(report, b" code ", u64::from(code))
        }
    }
}

/// What a core reads of a front of octets.
fn front_line<C: LinkCore>(alloc: Global, core: &C, front: &[u8]) -> Result<Octets, Memory> {
    let mut line = Octets::new(alloc);
    put_read(alloc, core, front, &mut line)?;
    Ok(line)
}

/// Puts last what a core reads of each front of octets.
fn put_fronts<C: LinkCore>(
    alloc: Global,
    core: &C,
    octets: &[u8],
    report: &mut Octets,
) -> Result<(), Memory> {
    let mut last = Octets::new(alloc);
    for len in 0..=octets.len() {
        let line = front_line(alloc, core, &octets[..len])?;
        put_new(report, &mut last, line)?;
    }
    Ok(())
}

/// The body of a deliver_sm from 0456789 to 13013 that is a report, up to the length of its text.
const BEFORE_THE_TEXT: &[u8] =
    b"\x00\x00\x000456789\x00\x00\x0113013\x00\x04\x00\x00\x00\x00\x00\x00\x00\x00";
/// The command_id, status and number of its header.
const BEHIND_THE_LENGTH: &[u8] = b"\x00\x00\x00\x05\x00\x00\x00\x00\x00\x00\x00\x07";
/// The most octets of a text.
const MOST_TEXT: usize = 254;
/// How many octets a header has, and the most of a body that are counted.
const HEADER_LEN: usize = 16;

const MOST_BODY: usize = 65_520;

/// The body of a report: its TLVs, and behind a bar its text.
fn report_body(alloc: Global, text: &[u8]) -> Result<Octets, Memory> {
    let (tlvs, text) = cut_item(text);
    let text = octets_of(alloc, text)?;
    let text = &text.as_slice()[..text.len().min(MOST_TEXT)];
    let mut body = Octets::from_slice(alloc, BEFORE_THE_TEXT)?;
    body.push(text.len() as u8)?;
    body.extend_from_slice(text)?;
    body.extend_from_slice(octets_of(alloc, tlvs)?.as_slice())?;
    Ok(body)
}

/// The frame of a report.
fn report_frame(alloc: Global, text: &[u8]) -> Result<Octets, Memory> {
    let body = report_body(alloc, text)?;
    let len = body.len().min(MOST_BODY) + HEADER_LEN;
    let mut frame = Octets::from_slice(alloc, &(len as u32).to_be_bytes())?;
    frame.extend_from_slice(BEHIND_THE_LENGTH)?;
    frame.extend_from_slice(body.as_slice())?;
    Ok(frame)
}

/// `hear`, `report` and `cut`.
pub(crate) fn put_case(
    alloc: Global,
    kind: &[u8],
    text: &[u8],
    report: &mut Octets,
) -> Result<(), Memory> {
    let octets = if kind == b"report".as_slice() {
        report_frame(alloc, text)?
    } else {
        octets_in(alloc, text)?
    };
    let core = core_of(alloc, b"")?;
    if kind == b"cut".as_slice() {
        put_fronts(alloc, &core, octets.as_slice(), report)
    } else {
        put_read(alloc, &core, octets.as_slice(), report)
    }
}
