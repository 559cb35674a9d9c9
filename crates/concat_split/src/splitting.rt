//! A text, cut into parts.

ghost use Rattle.std.specs.Prelude.{◌≡◌, ◌<◌, ◌≤◌, ◌+◌, ◌-◌, ◌^◌, ◌++◌, [], ◌∷◌, length, take, map, nat_le, IfOk, IfErr, OnOk, Ok, if◌then◌else◌};
ghost use Rattle.sms_record.specs.Record.{IsOfCoding};
ghost use Rattle.sms_record.specs.Room.{cap, header_len};
ghost use Rattle.concat_split.specs.Characters.{characters, units};
ghost use Rattle.concat_split.specs.Parts.{front, round, wrapped, texts, alone, numbered, room_of, around_of, parts_of, last_text, Takes, IsFaultOf, AreShort, AreLimits};
ghost use Rattle.concat_split.specs.Kept.{AreParts, IsSharedOut};

use crate::characters::{broken_len, units_of};
use crate::{Limits, Part, SplitFault};
use kn_base::{Memory, Octets};
use sms_record::Coding;
use std::alloc::Global;

/// The units that one message has room for beside a header of so many octets (GSM 03.40 9.2.3.16).
fn cap(coding: Coding, header: usize) -> usize
    ensures { result ≡ cap coding header }
{
    let octets = 140usize.saturating_sub(header);
    match coding {
        Coding::Seven => octets * 8 / 7,
        Coding::Eight => octets,
        Coding::Ucs2 => octets / 2,
    }
}

/// The octets of the header that goes out with a part.
fn header_len(udh: usize, limits: &Limits) -> usize
    requires { udh ≤ 60 }
    ensures { result ≡ header_len udh (if limits.now.concatenate then 2 else 1) }
{
    if !limits.concatenate {
        udh
    } else if udh == 0 {
        6
    } else {
        udh + 5
    }
}

/// The units of header and footer.
fn round(coding: Coding, limits: &Limits) -> usize
    requires { AreShort limits.now }
    ensures value { result ≡ round coding limits.now }
    ensures short { result < 2 ^ 63 }
{
    units_of(coding, limits.header.len()) + units_of(coding, limits.footer.len())
}

/// The units that a part has room for.
fn room_of(coding: Coding, udh: usize, limits: &Limits) -> usize
    requires { udh ≤ 60 }
    ensures { result ≡ room_of coding udh limits.now }
{
    if limits.parts == 1 {
        cap(coding, udh)
    } else {
        cap(coding, header_len(udh, limits))
    }
}

/// The units of what stands round the text of a part.
fn around_of(coding: Coding, limits: &Limits) -> usize
    requires { AreShort limits.now }
    ensures value { result ≡ around_of coding limits.now }
    ensures short { result < 2 ^ 63 }
{
    let around = round(coding, limits);
    if limits.parts == 1 {
        around
    } else {
        around + units_of(coding, limits.suffix.len())
    }
}

/// Whether a text fits with header and footer.
fn is_last(coding: Coding, room: usize, limits: &Limits, text: &[u8]) -> bool
    requires { AreShort limits.now }
    ensures { result ≡ nat_le (round coding limits.now + units coding text.now) room }
{
    let around = round(coding, limits);
    around <= room && units_of(coding, text.len()) <= room - around
}

/// How many octets of a text the last part takes.
fn last_len(coding: Coding, room: usize, limits: &Limits, text: &[u8]) -> usize
    requires { AreShort limits.now }
    ensures within { result ≤ length text.now }
    ensures taken { take result text.now ≡ last_text coding room limits.now text.now }
{
    if is_last(coding, room, limits, text) {
        text.len()
    } else {
        broken_len(
            coding,
            text,
            room.saturating_sub(round(coding, limits)),
            &[],
        )
    }
}

/// How many octets of a text a part takes that another one follows.
fn part_len(coding: Coding, room: usize, limits: &Limits, text: &[u8]) -> usize
    requires { AreShort limits.now }
    ensures { Takes coding room limits.now text.now result }
{
    let around = round(coding, limits) + units_of(coding, limits.suffix.len());
    broken_len(
        coding,
        text,
        room.saturating_sub(around),
        limits.split_chars.as_slice(),
    )
}

/// The octets of a part: header, text, suffix, footer.
fn body_of(alloc: Global, limits: &Limits, text: &[u8], suffix: &[u8]) -> Result<Octets, Memory>
    ensures { IfOk result (λ body. body ≡ wrapped limits.now (text.now ++ suffix.now)) }
{
    let mut body = Octets::from_slice(alloc, limits.header.as_slice())?;
    body.extend_from_slice(text)?;
    body.extend_from_slice(suffix)?;
    body.extend_from_slice(limits.footer.as_slice())?;
    Ok(body)
}

/// Puts a part last.
fn push_part(
    alloc: Global,
    parts: &mut Vec<Part>,
    limits: &Limits,
    text: &[u8],
    suffix: &[u8],
) -> Result<(), Memory>
    ensures { OnOk result (parts.new.items ≡ parts.old.items ++ alone (wrapped limits.now (text.now ++ suffix.now) ∷ [])) }
{
    let body = body_of(alloc, limits, text, suffix)?;
    parts.push(Part {
        body,
        total: 1,
        part: 1,
    })?;
    Ok(())
}

/// Cuts a text into as many parts as it needs and may have, each of which stands alone.
fn cut(
    alloc: Global,
    body: &[u8],
    coding: Coding,
    room: usize,
    limits: &Limits,
) -> Result<Vec<Part>, Memory>
    requires some { 0 < limits.now.parts }
    requires short { AreShort limits.now }
    ensures { IfOk result (λ parts. parts.items ≡ alone (texts coding room limits.now limits.now.parts (characters coding body.now))) }
{
    let mut parts = Vec::new(alloc);
    let mut rest = body;
    let mut left = limits.parts;
    while left > 1 && !is_last(coding, room, limits, rest) {
        let len = part_len(coding, room, limits, rest);
        push_part(
            alloc,
            &mut parts,
            limits,
            &rest[..len],
            limits.suffix.as_slice(),
        )?;
        rest = &rest[len..];
        left -= 1;
    }
    let len = last_len(coding, room, limits, rest);
    push_part(alloc, &mut parts, limits, &rest[..len], &[])?;
    Ok(parts)
}

/// Numbers parts that are to be joined.
fn number(parts: &mut Vec<Part>)
    requires { length parts.old.items ≤ 255 }
    ensures { parts.new.items ≡ numbered (length parts.old.items) 1 (map (λ p. p.body) parts.old.items) }
{
    let total = parts.len() as u8;
    for i in 0..parts.len() {
        let part = &mut parts[i];
        part.total = total;
        part.part = i as u8 + 1;
    }
}

/// Cuts a text into parts, and numbers them where they are to be joined.
fn cut_and_number(
    alloc: Global,
    body: &[u8],
    coding: Coding,
    room: usize,
    limits: &Limits,
) -> Result<Vec<Part>, Memory>
    requires some { 0 < limits.now.parts }
    requires few { limits.now.parts ≤ 100 }
    requires short { AreShort limits.now }
    ensures { IfOk result (λ parts. let all = texts coding room limits.now limits.now.parts (characters coding body.now) in
        parts.items ≡ (if limits.now.concatenate then numbered (length all) 1 all else alone all)) }
{
    let mut parts = cut(alloc, body, coding, room, limits)?;
    if limits.concatenate {
        number(&mut parts);
    }
    Ok(parts)
}

/// The one part that a text has that fits.
fn whole(alloc: Global, body: &[u8], limits: &Limits) -> Result<Vec<Part>, Memory>
    ensures { IfOk result (λ parts. parts.items ≡ alone (wrapped limits.now body.now ∷ [])) }
{
    let mut parts = Vec::new(alloc);
    push_part(alloc, &mut parts, limits, body, &[])?;
    Ok(parts)
}

/// The parts of a text, as they are defined.
fn split_as_defined(
    alloc: Global,
    body: &[u8],
    coding: Coding,
    udh: usize,
    limits: &Limits,
) -> Result<Vec<Part>, SplitFault>
    requires udh { udh ≤ 60 }
    requires body { IsOfCoding coding body.now }
    requires limits { AreLimits coding limits.now }
    ensures parts { IfOk result (λ parts. parts_of coding body.now udh limits.now ≡ Ok parts.items) }
    ensures fault { IfErr result (IsFaultOf (parts_of coding body.now udh limits.now)) }
{
    if is_last(coding, cap(coding, udh), limits, body) {
        return Ok(whole(alloc, body, limits)?);
    }
    let room = room_of(coding, udh, limits);
    let around = around_of(coding, limits);
    if room < around + 2 {
        return Err(SplitFault::NoRoom { room, around });
    }
    Ok(cut_and_number(alloc, body, coding, room, limits)?)
}

/// The parts of a text, where the request's own header has `udh` octets. Lengths are counted in septets, octets or UCS-2
/// units by the coding.
///
/// A text that fits into one message (GSM 03.40 9.2.3.16) with its header and footer is one part. Else, with `parts` 1, it is
/// cut behind its longest front of whole characters that fits. Else each part but the last is the header, a front of what is
/// left, the suffix and the footer: the longest front that fits, or up to and with the last of `split_chars` in it. The last
/// part has the rest, or as much of it as fits. With `concatenate` room is kept for the element that joins the parts
/// (GSM 03.40 9.2.3.24.1), and each part has its number.
///
/// # Errors
/// `NoRoom` where a part has room for less than what stands round its text and 2 units, with both numbers; `Memory`.
pub fn split(
    alloc: Global,
    body: &[u8],
    coding: Coding,
    udh: usize,
    limits: &Limits,
) -> Result<Vec<Part>, SplitFault>
    requires udh { udh ≤ 60 }
    requires body { IsOfCoding coding body.now }
    requires limits { AreLimits coding limits.now }
    ensures parts { IfOk result (λ parts. parts_of coding body.now udh limits.now ≡ Ok parts.items) }
    ensures fault { IfErr result (IsFaultOf (parts_of coding body.now udh limits.now)) }

    // Each part and its header are one message, and no character of the text is cut.
    ensures each { IfOk result (λ parts. AreParts coding udh limits.now parts.items) }
    ensures kept { IfOk result (λ parts. IsSharedOut coding body.now limits.now parts.items) }
{
    split_as_defined(alloc, body, coding, udh, limits)
}
