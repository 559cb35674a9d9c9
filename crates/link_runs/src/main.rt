//! SMPP as the protocol of a link, by cases that were written out by hand. Each line is a case:
//!
//! - `hear OCTETS`: what a frame of a centre says.
//! - `report TLVS | TEXT`: what a report of a centre says that has this text and these optional parameters, with the escapes of `line_cases`.
//! - `cut OCTETS`: what each front of octets says, once where those beside it are the same.
//! - `answer OCTETS`, `full OCTETS`: the frame that answers it, well or for want of room.
//! - `login TAG TYPE`, `keep TAG`: the frame of a login with this type of system, of a question.
//! - `submit TAG NUMBER NOW RECORD`: the frame of a message.
//! - `next TAG`: the tag behind another, or with 0 the first one.
//!
//! Octets and records are hex digits; blanks between them mean nothing.
#![tactic(auto)]

mod hear;
mod say;

use kn_base::{Memory, Octets, read_hex};
use line_cases::{Cases, cut_at, run_lines, words_of};
use std::alloc::Global;
use std::process::ExitCode;

/// The cases of links.
struct LinkCases;

/// The octets of words of hex digits.
pub(crate) fn octets_in(alloc: Global, text: &[u8]) -> Result<Octets, Memory> {
    let mut octets = Octets::new(alloc);
    for word in words_of(alloc, text)?.iter() {
        let piece = read_hex(alloc, word).unwrap_or(Octets::new(alloc));
        octets.extend_from_slice(piece.as_slice())?;
    }
    Ok(octets)
}

impl Cases for LinkCases {
    fn report(&self, alloc: Global, line: &[u8], report: &mut Octets) -> Result<(), Memory> {
        let (kind, text) = cut_at(line, b' ');
        report.extend_from_slice(b"    ")?;
        if kind == b"hear".as_slice() || kind == b"report".as_slice() || kind == b"cut".as_slice() {
            hear::put_case(alloc, kind, text, report)?;
        } else {
            say::put_case(alloc, kind, text, report)?;
        }
        report.push(b'\n')
    }
}

fn main(rt: HostRuntime) -> ExitCode {
    run_lines(rt, rt.alloc(), &LinkCases)
}
