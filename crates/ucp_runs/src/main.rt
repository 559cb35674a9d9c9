//! Frames of UCP that were written out by hand, and what the calls make of them. Each line is a case, whose name says what it shows:
//!
//! - `read NAME TEXT`: what stands in front of the octets, and, of a frame, `other` before it where its PDU isn't written so again.
//! - `cut NAME TEXT`: what stands in front of each front of them, once where those beside it are the same.
//!
//! In a text `{` stands for STX, `}` for ETX.
#![tactic(auto)]

ghost use Rattle.ucp_wire.specs.Grammar.{IsCommand, command_of};

use kn_base::{Memory, Octets};
use line_cases::{Cases, cut_at, put_named, put_new, put_text, run_lines};
use std::alloc::Global;
use std::process::ExitCode;
use ucp_wire::{Frame, Pdu, read_frame, write_pdu};

/// The cases of frames.
struct FrameCases;

impl Cases for FrameCases {
    fn report(&self, alloc: Global, line: &[u8], report: &mut Octets) -> Result<(), Memory> {
        let (kind, text) = cut_at(line, b' ');
        let (_, text) = cut_at(text, b' ');
        let octets = frame_octets(alloc, text)?;
        if kind == b"cut".as_slice() {
            return put_cuts(alloc, octets.as_slice(), report);
        }
        let line = front_line(alloc, octets.as_slice())?;
        report.extend_from_slice(line.as_slice())?;
        report.push(b'\n')
    }
}

/// The octets that a text stands for.
fn frame_octets(alloc: Global, text: &[u8]) -> Result<Octets, Memory> {
    let mut octets = Octets::new(alloc);
    for octet in text {
        octets.push(match *octet {
            b'{' => 2,
            b'}' => 3,
            other => other,
        })?;
    }
    Ok(octets)
}

/// Puts last what a frame says, and the word `other` where it is written otherwise than it stands in front of the octets.
fn put_whole(alloc: Global, report: &mut Octets, pdu: &Pdu, octets: &[u8]) -> Result<(), Memory>
    requires { IsCommand (command_of pdu.now) }
{
    let mut again = Octets::new(alloc);
    write_pdu(&mut again, pdu)?;
    if !octets.starts_with(again.as_slice()) {
        report.extend_from_slice(b"other ")?;
    }
    put_named(report, b"whole ", again.len() as u64)?;
    put_named(report, b" | ", u64::from(pdu.trn))?;
    report.extend_from_slice(if pdu.result {
        b" result "
    } else {
        b" operation "
    })?;
    put_named(report, b"", u64::from(pdu.operation))?;
    report.extend_from_slice(b" [")?;
    put_text(report, pdu.fields)?;
    report.push(b']')
}

/// What stands in front of octets.
fn front_line(alloc: Global, octets: &[u8]) -> Result<Octets, Memory> {
    let mut line = Octets::from_slice(alloc, b"    ")?;
    match read_frame(octets) {
        Frame::Whole { pdu, len } => put_whole(alloc, &mut line, &pdu, &octets[..len])?,
        Frame::NeedMore => line.extend_from_slice(b"need more")?,
        Frame::Bad { at, code } => {
            put_named(&mut line, b"bad at ", at as u64)?;
            put_named(&mut line, b" code ", u64::from(code))?;
        }
    }
    Ok(line)
}

/// Puts last what stands in front of each front of octets, and of all of them.
fn put_cuts(alloc: Global, octets: &[u8], report: &mut Octets) -> Result<(), Memory> {
    let mut last = Octets::new(alloc);
    for cut in 0..octets.len() {
        let line = front_line(alloc, &octets[..cut])?;
        put_new(report, &mut last, line)?;
    }
    let line = front_line(alloc, octets)?;
    put_new(report, &mut last, line)
}

fn main(rt: HostRuntime) -> ExitCode {
    run_lines(rt, rt.alloc(), &FrameCases)
}
