//! Heads as they come on the wire, and what is read of them.

ghost use Rattle.std.specs.Prelude.{◌<◌};

use http_text::{Head, HeadRead, Place, read_head, read_more};
use kn_base::{Memory, Octets};
use line_cases::{cut_at, number, octets_of, put_named};
use std::alloc::Global;

/// Puts last how long a head is and what it says: whether it is a GET, its minor version, whether it closes, and whether a body follows.
fn put_whole(report: &mut Octets, head: &Head, len: usize) -> Result<(), Memory> {
    put_named(report, b"whole ", len as u64)?;
    put_named(report, b" | get ", u64::from(head.get))?;
    put_named(report, b", minor ", u64::from(head.minor))?;
    put_named(report, b", close ", u64::from(head.close))?;
    put_named(report, b", body ", u64::from(head.body))
}

/// Puts last what was read of octets.
fn put_read(report: &mut Octets, read: &HeadRead) -> Result<(), Memory> {
    match read {
        HeadRead::Whole { head, len } => put_whole(report, head, *len),
        HeadRead::NeedMore => report.extend_from_slice(b"more"),
        HeadRead::Bad => report.extend_from_slice(b"bad"),
        HeadRead::TooLong { seen } => put_named(report, b"too long ", *seen as u64),
    }
}

/// `head OCTETS`: what stands in front of them.
pub fn put_head(alloc: Global, text: &[u8], report: &mut Octets) -> Result<(), Memory> {
    let octets = octets_of(alloc, text)?;
    put_read(report, &read_head(alloc, octets.as_slice())?)
}

/// `heard PIECE OCTETS`: the same where they are heard in pieces of so many octets, and how many were heard then.
pub fn put_heard(alloc: Global, text: &[u8], report: &mut Octets) -> Result<(), Memory> {
    let (digits, text) = cut_at(text, b' ');
    let octets = octets_of(alloc, text)?;
    let piece = number(digits).clamp(1, 65_536) as usize;
    let (read, heard) = hear(alloc, octets.as_slice(), piece)?;
    put_named(report, b"at ", heard as u64)?;
    report.extend_from_slice(b" ")?;
    put_read(report, &read)
}

/// What is read of octets that are heard in pieces, up to the first answer but `NeedMore`, and how many were heard then.
fn hear(alloc: Global, octets: &[u8], piece: usize) -> Result<(HeadRead, usize), Memory>
    requires { 0 < piece }
{
    let mut heard = 0;
    let mut place = Place::Unknown;
    while octets.len() - heard > piece {
        let (read, next) = read_more(alloc, &octets[..heard + piece], heard, place)?;
        heard += piece;
        place = next;
        if !is_need_more(&read) {
            return Ok((read, heard));
        }
    }
    let (read, _) = read_more(alloc, octets, heard, place)?;
    Ok((read, octets.len()))
}

/// Whether more octets are needed.
fn is_need_more(read: &HeadRead) -> bool {
    match read {
        HeadRead::NeedMore => true,
        _ => false,
    }
}
