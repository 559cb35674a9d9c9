//! Characters with their septets, septets with their octets, octets with their text.

ghost use Rattle.std.specs.Prelude.{◌<◌, ◌≤◌, ◌*◌, ◌↔◌, All, IsTrue, length};

use gsm_alphabet::{CharsetFault, from_charset, from_gsm, pack, to_gsm, to_ucs2, unpack};
use kn_base::{Charset, Memory, Octets, write_hex};
use line_cases::{cut_at, number, octets_of, put_named, put_text};
use std::alloc::Global;

/// The most septets and octets of a case.
const MOST: usize = 1_000;

fn are_septets(octets: &[u8]) -> bool
    ensures { IsTrue result ↔ All (λ octet. octet < 128) octets.now }
{
    octets.iter().all(|octet| *octet < 128)
}

fn can_unpack(octets: &[u8], count: usize) -> bool
    ensures { IsTrue result → 7 * count ≤ 8 * length octets.now }
{
    count <= MOST && octets.len() <= MOST && 7 * count <= 8 * octets.len()
}

/// Puts the text of septets last.
fn put_shown(alloc: Global, septets: &[u8], report: &mut Octets) -> Result<(), Memory> {
    if !are_septets(septets) {
        return report.extend_from_slice(b"no septets");
    }
    let text = from_gsm(alloc, septets)?;
    put_text(report, text.as_bytes())
}

/// Puts the character of each septet last, with a blank behind it.
fn put_all_shown(alloc: Global, report: &mut Octets) -> Result<(), Memory> {
    for septet in 0..128u8 {
        put_shown(alloc, &[septet], report)?;
        report.push(b' ')?;
    }
    Ok(())
}

/// Puts the octets of septets last.
fn put_packed(alloc: Global, septets: &[u8], report: &mut Octets) -> Result<(), Memory> {
    if !are_septets(septets) {
        return report.extend_from_slice(b"no septets");
    }
    let packed = pack(alloc, septets)?;
    write_hex(report, packed.as_slice())
}

/// Puts so many septets of octets last.
fn put_unpacked(
    alloc: Global,
    octets: &[u8],
    count: usize,
    report: &mut Octets,
) -> Result<(), Memory> {
    if !can_unpack(octets, count) {
        return report.extend_from_slice(b"too few");
    }
    let septets = unpack(alloc, octets, count)?;
    write_hex(report, septets.as_slice())
}

/// Puts the octets of a text in UCS-2 last.
fn put_ucs2(alloc: Global, text: &str, report: &mut Octets) -> Result<(), Memory> {
    let octets = to_ucs2(alloc, text)?;
    write_hex(report, octets.as_slice())
}

/// Puts the septets of a text last.
fn put_septets(alloc: Global, text: &str, report: &mut Octets) -> Result<(), Memory> {
    let septets = to_gsm(alloc, text)?;
    write_hex(report, septets.as_slice())
}

/// Puts the text of octets of a charset last, or why they are none.
fn put_charset(
    alloc: Global,
    octets: &[u8],
    charset: Charset,
    report: &mut Octets,
) -> Result<(), Memory> {
    match from_charset(alloc, octets, charset) {
        Ok(text) => put_text(report, text.as_bytes()),
        Err(CharsetFault::BadUtf8 { at }) => put_named(report, b"no UTF-8 at ", at as u64),
        Err(CharsetFault::Odd { len }) => put_named(report, b"odd ", len as u64),
        Err(CharsetFault::Memory) => Err(Memory),
    }
}

/// Puts the septets or the units of a text last.
fn put_of_text(
    alloc: Global,
    octets: &[u8],
    ucs2: bool,
    report: &mut Octets,
) -> Result<(), Memory> {
    match str::from_utf8(octets) {
        Ok(text) if ucs2 => put_ucs2(alloc, text, report),
        Ok(text) => put_septets(alloc, text, report),
        Err(_) => report.extend_from_slice(b"no text"),
    }
}

/// Puts a text last, of octets in the charset of a name.
fn put_text_of(
    alloc: Global,
    octets: &[u8],
    name: &[u8],
    report: &mut Octets,
) -> Result<(), Memory> {
    let charset = if name == b"utf8".as_slice() {
        Charset::Utf8
    } else if name == b"latin1".as_slice() {
        Charset::Latin1
    } else {
        Charset::Utf16Be
    };
    put_charset(alloc, octets, charset, report)
}

/// Puts last what the alphabet makes of septets or octets, of which COUNT is said.
fn put_of_septets(
    alloc: Global,
    kind: &[u8],
    octets: &[u8],
    count: usize,
    report: &mut Octets,
) -> Result<(), Memory> {
    if kind == b"all".as_slice() {
        put_all_shown(alloc, report)
    } else if kind == b"shows".as_slice() {
        put_shown(alloc, octets, report)
    } else if kind == b"packs".as_slice() {
        put_packed(alloc, octets, report)
    } else {
        put_unpacked(alloc, octets, count, report)
    }
}

/// `all` shows each septet, `shows OCTETS` the text of septets, `packs OCTETS` their octets, `unpacks-N OCTETS` N septets of octets.
/// `text OCTETS` are the septets of a text, `ucs2 OCTETS` its units, and `charset-NAME OCTETS` is a text in a charset.
pub fn put_alphabet(alloc: Global, text: &[u8], report: &mut Octets) -> Result<(), Memory> {
    let (kind, text) = cut_at(text, b' ');
    let (kind, name) = cut_at(kind, b'-');
    let octets = octets_of(alloc, text)?;
    if kind == b"text".as_slice() || kind == b"ucs2".as_slice() {
        put_of_text(alloc, octets.as_slice(), kind == b"ucs2".as_slice(), report)
    } else if kind == b"charset".as_slice() {
        put_text_of(alloc, octets.as_slice(), name, report)
    } else {
        put_of_septets(
            alloc,
            kind,
            octets.as_slice(),
            number(name) as usize,
            report,
        )
    }
}
