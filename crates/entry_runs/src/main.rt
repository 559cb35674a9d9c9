//! Entries that were written out by hand from the format, and what the calls make of them. Each line is a case:
//!
//! - `read WORDS`: what is read of the octets, how many it says to be, and whether they are written again.
//! - `size WORDS`: the same without the fields.
//! - `cut WORDS`: what is read of each front of them, once where those beside it are the same.
//! - `changed PLACE OCTET WORDS`: what is read of them with another octet at a place.
//!
//! A word is octets in hex digits, or `hello`, which stands for the record of that message; behind `N*` it stands N times. A bar between
//! words means nothing.
#![tactic(auto)]

mod kept;
mod octets;

use gate_entries::read_entry;
use kept::{put_fault, put_kept, put_named_kind};
use kn_base::{Memory, Octets};
use line_cases::{Cases, cut_at, number, octet, put_new, run_lines};
use octets::octets_of_words;
use std::alloc::Global;
use std::process::ExitCode;

/// The cases of entries.
struct EntryCases;

impl Cases for EntryCases {
    fn report(&self, alloc: Global, line: &[u8], report: &mut Octets) -> Result<(), Memory> {
        let (kind, text) = cut_at(line, b' ');
        if kind == b"cut".as_slice() {
            return put_cuts(alloc, octets_of_words(alloc, text)?.as_slice(), report);
        }
        report.extend_from_slice(b"    ")?;
        if kind == b"changed".as_slice() {
            put_changed(alloc, text, report)?;
        } else {
            let octets = octets_of_words(alloc, text)?;
            put_read(alloc, octets.as_slice(), kind == b"size".as_slice(), report)?;
        }
        report.push(b'\n')
    }
}

/// Puts last what is read of octets.
fn put_read(
    alloc: Global,
    octets: &[u8],
    in_short: bool,
    report: &mut Octets,
) -> Result<(), Memory> {
    match read_entry(alloc, octets) {
        Ok(entry) => put_kept(alloc, &entry, octets, in_short, report),
        Err(fault) => put_fault(report, fault),
    }
}

/// What is read of a front, in short.
fn front_line(alloc: Global, front: &[u8]) -> Result<Octets, Memory> {
    let mut line = Octets::from_slice(alloc, b"    ")?;
    match read_entry(alloc, front) {
        Ok(entry) => put_named_kind(&mut line, &entry)?,
        Err(fault) => put_fault(&mut line, fault)?,
    }
    Ok(line)
}

/// Puts last what is read of each front of octets, and of all of them.
fn put_cuts(alloc: Global, octets: &[u8], report: &mut Octets) -> Result<(), Memory> {
    let mut last = Octets::new(alloc);
    for cut in 0..octets.len() {
        let line = front_line(alloc, &octets[..cut])?;
        put_new(report, &mut last, line)?;
    }
    let line = front_line(alloc, octets)?;
    put_new(report, &mut last, line)
}

/// Puts last what is read where another octet stands at a place.
fn put_changed(alloc: Global, text: &[u8], report: &mut Octets) -> Result<(), Memory> {
    let (place, text) = cut_at(text, b' ');
    let (other, text) = cut_at(text, b' ');
    let place = number(place) as usize;
    let mut octets = octets_of_words(alloc, text)?.into_vec();
    if place < octets.len() {
        octets[place] = octet(other);
    }
    put_read(alloc, octets.as_slice(), false, report)
}

fn main(rt: HostRuntime) -> ExitCode {
    run_lines(rt, rt.alloc(), &EntryCases)
}
