//! Texts with the parts that they have, and headers with what they say.

ghost use Rattle.std.specs.Prelude.{◌≡◌, ◌↔◌, ◌<◌, ◌≤◌, IsTrue, IfOk, All, length};
ghost use Rattle.sms_record.specs.Header.{IsHeaderOrNone};
ghost use Rattle.sms_record.specs.Record.{IsOfCoding};
ghost use Rattle.concat_split.specs.Parts.{AreLimits};

use concat_split::{HeaderFault, Joint, Limits, Part, SplitFault, read_udh, split, udh_of};
use kn_base::{Charset, Memory, Octets, write_hex};
use line_cases::{both, cut_at, number, octet, octets_of, put_named};
use sms_lines::coding_of;
use sms_record::{Address, Coding, Sms};
use std::alloc::Global;

/// The octets of the first two words, and the words behind them. `-` stands for none.
fn two_texts(alloc: Global, text: &[u8]) -> Result<((Octets, Octets), &[u8]), Memory> {
    let (first, text) = cut_at(text, b' ');
    let (second, text) = cut_at(text, b' ');
    let texts = both(text_of(alloc, first), text_of(alloc, second))?;
    Ok((texts, text))
}

fn text_of(alloc: Global, text: &[u8]) -> Result<Octets, Memory> {
    octets_of(alloc, if text == b"-".as_slice() { &[] } else { text })
}

/// The limits that a text begins with, and what stands behind them.
fn limits_of(alloc: Global, text: &[u8]) -> Result<(Limits, &[u8]), Memory> {
    let (parts, text) = cut_at(text, b' ');
    let ((split_chars, suffix), text) = two_texts(alloc, text)?;
    let ((header, footer), text) = two_texts(alloc, text)?;
    let limits = Limits {
        parts: octet(parts),
        concatenate: true,
        split_chars,
        suffix,
        header,
        footer,
    };
    Ok((limits, text))
}

/// Whether each octet is a septet.
fn are_septets(octets: &[u8]) -> bool
    ensures { IsTrue result ↔ All (λ septet. septet < 128) octets.now }
{
    octets.iter().all(|octet| *octet < 128)
}

/// Whether a text is septets, octets or whole units.
fn is_of_coding(coding: Coding, text: &[u8]) -> bool
    ensures { IsTrue result ↔ IsOfCoding coding text.now }
{
    match coding {
        Coding::Seven => are_septets(text),
        Coding::Eight => true,
        Coding::Ucs2 => text.len() % 2 == 0,
    }
}

fn is_short(octets: &Octets) -> bool
    ensures { IsTrue result ↔ (length octets.now < 100) }
{
    octets.len() < 100
}

fn may_split(coding: Coding, limits: &Limits) -> bool
    ensures { IsTrue result → AreLimits coding limits.now }
{
    1 <= limits.parts
        && limits.parts <= 100
        && is_short(&limits.header)
        && is_short(&limits.suffix)
        && is_short(&limits.footer)
        && is_of_coding(coding, limits.header.as_slice())
        && is_of_coding(coding, limits.suffix.as_slice())
        && is_of_coding(coding, limits.footer.as_slice())
}

/// Puts last how many octets each part has.
fn put_lens(report: &mut Octets, parts: &[Part]) -> Result<(), Memory> {
    for part in parts {
        put_named(report, b" ", part.body.len() as u64)?;
    }
    Ok(())
}

/// Puts last how a text is split.
fn put_parts(
    alloc: Global,
    body: &[u8],
    (coding, udh): (Coding, usize),
    limits: &Limits,
    report: &mut Octets,
) -> Result<(), Memory> {
    if udh > 60 || !is_of_coding(coding, body) || !may_split(coding, limits) {
        return report.extend_from_slice(b"no case");
    }
    match split(alloc, body, coding, udh, limits) {
        Ok(parts) => put_lens(report, &parts),
        Err(SplitFault::NoRoom { room, around }) => {
            put_named(report, b"no room ", room as u64)?;
            put_named(report, b" around ", around as u64)
        }
        Err(SplitFault::Memory) => Err(Memory),
    }
}

/// `parts CODING UDH PARTS CHARS SUFFIX HEADER FOOTER TEXT`: the octets of each part of a text, of which UDH octets are left out
/// for a header, and which is cut behind CHARS.
pub fn put_split(alloc: Global, text: &[u8], report: &mut Octets) -> Result<(), Memory> {
    let (coding, text) = cut_at(text, b' ');
    let (udh, text) = cut_at(text, b' ');
    let (limits, text) = limits_of(alloc, text)?;
    let body = octets_of(alloc, text)?;
    let how = (coding_of(coding), number(udh) as usize);
    put_parts(alloc, body.as_slice(), how, &limits, report)
}

/// A message with this header that is one of several parts.
fn message(alloc: Global, udh: &[u8], total: u8, part: u8) -> Result<Sms, Memory>
    ensures { IfOk result (λ sms. sms.udh ≡ udh.now) }
{
    let udh = Octets::from_slice(alloc, udh)?;
    Ok(Sms {
        sender: Address::Text(Octets::new(alloc)),
        receiver: Address::Text(Octets::new(alloc)),
        coding: Coding::Seven,
        class: None,
        udh,
        body: Octets::new(alloc),
        total,
        part,
        smsc: Octets::new(alloc),
        validity: 0,
        deferred: 0,
        mask: 0,
        url: Octets::new(alloc),
        account: Octets::new(alloc),
        service: Octets::new(alloc),
        charset: Charset::Utf8,
        time: 0,
    })
}

/// Puts last the header that goes out with a message of this header, number, total and part.
fn put_outgoing(
    alloc: Global,
    own: &[u8],
    (name, total, part): (u64, u8, u8),
    report: &mut Octets,
) -> Result<(), Memory> {
    if !(own.len() < 60 && name < 1_000 && read_udh(own).is_ok()) {
        return report.extend_from_slice(b"no case");
    }
    let sms = message(alloc, own, total, part)?;
    let udh = udh_of(alloc, &sms, name)?;
    write_hex(report, udh.as_slice())
}

/// `joined NUMBER TOTAL PART OCTETS`: the header that goes out with a part of a message of that number and header.
pub fn put_joined(alloc: Global, text: &[u8], report: &mut Octets) -> Result<(), Memory> {
    let (name, text) = cut_at(text, b' ');
    let (total, text) = cut_at(text, b' ');
    let (part, text) = cut_at(text, b' ');
    let own = octets_of(alloc, text)?;
    let numbers = (number(name), octet(total), octet(part));
    put_outgoing(alloc, own.as_slice(), numbers, report)
}

fn put_told(report: &mut Octets, joint: Joint) -> Result<(), Memory> {
    put_named(report, b"reference ", u64::from(joint.reference))?;
    put_named(report, b", part ", u64::from(joint.part))?;
    put_named(report, b" of ", u64::from(joint.total))
}

/// `joint OCTETS`: what a header says of concatenation, or where it is no header.
pub fn put_joint(alloc: Global, text: &[u8], report: &mut Octets) -> Result<(), Memory> {
    let udh = octets_of(alloc, text)?;
    match read_udh(udh.as_slice()) {
        Ok(Some(joint)) => put_told(report, joint),
        Ok(None) => report.extend_from_slice(b"nothing"),
        Err(HeaderFault::Malformed { at }) => put_named(report, b"malformed ", at as u64),
    }
}
