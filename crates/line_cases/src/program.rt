//! The program: it goes over the lines.

use crate::cut_at;
use kn_base::{HostPeer, Memory, Octets, Sink, Source, Take, write_all};
use std::alloc::Global;
use std::process::ExitCode;

/// What a program of tests makes of a line.
pub trait Cases {
    /// Puts what the case of a line came to last, as whole lines.
    fn report(&self, alloc: Global, line: &[u8], report: &mut Octets) -> Result<(), Memory>;
}

/// All octets of a source, up to its end.
fn read_to_end<S: Source>(alloc: Global, source: &mut S) -> Result<Octets, Memory> {
    let mut all = Octets::new(alloc);
    let mut piece = [0; 4096];
    for _ in 0..u64::MAX {
        let Take::Bytes(taken) = source.take(&mut piece) else {
            break;
        };
        all.extend_from_slice(&piece[..taken])?;
    }
    Ok(all)
}

/// The line, and what its case came to. An empty line stays.
fn answer_line<C: Cases>(alloc: Global, line: &[u8], cases: &C) -> Result<Octets, Memory> {
    let mut report = Octets::from_slice(alloc, line)?;
    report.push(b'\n')?;
    if !line.is_empty() {
        cases.report(alloc, line, &mut report)?;
    }
    Ok(report)
}

/// Answers each line of a peer.
fn answer_lines<P: Source + Sink, C: Cases>(
    alloc: Global,
    peer: &mut P,
    cases: &C,
) -> Result<(), Memory> {
    let lines = read_to_end(alloc, peer)?;
    let mut rest = lines.as_slice();
    for _ in 0..lines.len() {
        if rest.is_empty() {
            break;
        }
        let (line, behind) = cut_at(rest, b'\n');
        rest = behind;
        let _ = write_all(peer, answer_line(alloc, line, cases)?.as_slice());
    }
    Ok(())
}

/// Answers each line of standard input on standard output. The status is 9 where memory was wanting.
pub fn run_lines<R: Input + Print + Drop, C: Cases>(rt: R, alloc: Global, cases: &C) -> ExitCode {
    match answer_lines(alloc, &mut HostPeer::new(rt), cases) {
        Ok(()) => ExitCode::SUCCESS,
        Err(Memory) => ExitCode::from(9),
    }
}
