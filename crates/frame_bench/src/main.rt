//! Writes and reads frames of SMPP 3.4, as `bench/frames.sh` has it.
//!
//! `frame_bench write COUNT`: so many submit_sm, and as many answers to them, are written, each with a sequence number of its own. `both`: each is read again, too.
//! It writes how many octets they have together, those that were written or those that were read. A frame counts none where memory was wanting.
#![tactic(auto)]

ghost use Rattle.smpp_wire.specs.Command.{command_of};
ghost use Rattle.smpp_wire.specs.Grammar.{IsCommand};

use kn_base::{HostPeer, Memory, Octets, write_all};
use line_cases::{number, put_named};
use smpp_wire::{Frame, Pdu, read_frame, write_pdu};
use std::alloc::Global;
use std::env;
use std::process::ExitCode;
use std::rt::Env;

/// A submit_sm from 123 to 0123456, of 24 septets: 67 octets.
const SUBMIT: &[u8] =
    b"\x00\x00\x00\x43\x00\x00\x00\x04\x00\x00\x00\x00\x00\x00\x00\x02\x00\x00\x01123\x00\x00\x010123456\x00\x00\x00\x00\x00\x00\x00\x00\x00\x00\x18Your code is 3041 today.";

/// The answer to it, with the id 00003041: 25 octets.
const REPLY: &[u8] =
    b"\x00\x00\x00\x19\x80\x00\x00\x04\x00\x00\x00\x00\x00\x00\x00\x0200003041\x00";

/// What is done with the frames.
#[derive(Clone, Copy)]
enum Course {
    Write,
    Both,
}

/// The course of a word, and `Both` of any but `write`.
fn course_of(word: &[u8]) -> Course {
    match word {
        b"write" => Course::Write,
        _ => Course::Both,
    }
}

/// Puts the frame of a PDU with this sequence number in place of what stands there, or nothing where memory is wanting.
fn put_frame(into: &mut Octets, pdu: &Pdu, sequence: u32)
    requires { IsCommand (command_of pdu.now) }
{
    into.truncate(0);
    let pdu = Pdu {
        id: pdu.id,
        status: pdu.status,
        sequence,
        body: pdu.body,
    };
    let _ = write_pdu(into, &pdu);
}

/// How many octets the frame in front has, or 0 where none stands there.
fn len_read(octets: &[u8]) -> usize {
    match read_frame(octets) {
        Frame::Whole { len, .. } => len,
        Frame::NeedMore | Frame::Bad { .. } => 0,
    }
}

/// The octets of so many frames like this one.
fn octets_of(alloc: Global, frame: &[u8], course: Course, count: u32) -> u64 {
    let Frame::Whole { pdu, .. } = read_frame(frame) else {
        return 0;
    };
    let mut into = Octets::new(alloc);
    let mut sum = 0_u64;
    for sequence in 0..count {
        put_frame(&mut into, &pdu, sequence);
        let len = match course {
            Course::Write => into.len(),
            Course::Both => len_read(into.as_slice()),
        };
        sum = sum.saturating_add(len as u64);
    }
    sum
}

/// The course and the count that the words give.
fn read_words<R: Env + AllocGlobal>(rt: &R) -> (Course, u32) {
    let mut course = Course::Both;
    let mut count = 0;
    if let Ok(args) = env::args(rt) {
        for (at, word) in args.skip(1).enumerate() {
            match at {
                0 => course = course_of(word.as_bytes()),
                _ => count = u32::try_from(number(word.as_bytes())).unwrap_or(u32::MAX),
            }
        }
    }
    (course, count)
}

/// What the words come to, in a line.
fn report<R: Env + AllocGlobal>(rt: &R) -> Result<Octets, Memory> {
    let (course, count) = read_words(rt);
    let mut line = Octets::new(rt.alloc());
    let submits = octets_of(rt.alloc(), SUBMIT, course, count);
    let replies = octets_of(rt.alloc(), REPLY, course, count);
    put_named(&mut line, b"submits ", submits)?;
    put_named(&mut line, b", replies ", replies)?;
    line.push(b'\n')?;
    Ok(line)
}

fn main(rt: HostRuntime) -> ExitCode {
    match report(&rt) {
        Ok(line) => {
            let _ = write_all(&mut HostPeer::new(rt), line.as_slice());
            ExitCode::SUCCESS
        }
        Err(_) => ExitCode::FAILURE,
    }
}
