//! What a session came to, in words.

use boxes_main::{House, SessionEnd, WorkerEnd};
use kn_base::{Memory, Octets, Past, Peer, Piece, write_hex};
use line_cases::{put_named, put_text};
use link_turn::EndCause;
use std::alloc::Global;

/// Puts the cause of an end that has numbers last.
fn put_counted(report: &mut Octets, cause: EndCause) -> Result<(), Memory> {
    match cause {
        EndCause::LoginRefused { code } => put_named(report, b"login refused ", u64::from(code)),
        EndCause::BadFrame { at, code } => {
            put_named(report, b"bad frame at ", at)?;
            put_named(report, b" code ", u64::from(code))
        }
        EndCause::NoReply { tag, sent, now } => {
            put_named(report, b"no reply to ", u64::from(tag))?;
            put_named(report, b" of ", sent)?;
            put_named(report, b" at ", now)
        }
        EndCause::Budget { taken } => put_named(report, b"budget ", taken),
        EndCause::QuietLimit { turns } => put_named(report, b"quiets ", u64::from(turns)),
        _ => report.extend_from_slice(b"other"),
    }
}

/// Puts the cause of an end last.
fn put_cause(report: &mut Octets, cause: EndCause) -> Result<(), Memory> {
    let word: &[u8] = match cause {
        EndCause::PeerEnd => b"peer end",
        EndCause::PeerFault => b"peer fault",
        EndCause::Disk => b"disk",
        EndCause::Full => b"full",
        EndCause::Memory => b"memory",
        EndCause::Bye => b"bye",
        EndCause::Closed => b"closed",
        _ => return put_counted(report, cause),
    };
    report.extend_from_slice(word)
}

/// Puts the octets last that were said in a talk, in hex.
fn put_said(report: &mut Octets, pieces: &[Piece]) -> Result<(), Memory> {
    for piece in pieces {
        if let Piece::Said(octets) = piece {
            report.push(b' ')?;
            write_hex(report, octets.as_slice())?;
        }
    }
    Ok(())
}

/// Puts last how a worker's sessions ended, and what was said in them. Whether a call of a peer failed.
pub fn put_worker<H: House>(report: &mut Octets, worker: &WorkerEnd<H>) -> Result<bool, Memory> {
    for end in worker.ends.as_slice() {
        report.extend_from_slice(b" | ")?;
        match end {
            SessionEnd::Link(cause) => put_cause(report, *cause)?,
            SessionEnd::Http(_) => report.extend_from_slice(b"http")?,
        }
    }
    let mut has_failed = false;
    for past in worker.pasts.as_slice() {
        report.extend_from_slice(b" | said")?;
        if let Some(pieces) = &past.pieces {
            put_said(report, pieces.as_slice())?;
        }
        has_failed = has_failed || past.faults > 0;
    }
    Ok(has_failed)
}

/// Puts the octets last that were said in a talk.
fn put_pieces(into: &mut Octets, past: &Past) -> Result<(), Memory> {
    for piece in past.pieces.as_slice() {
        if let Piece::Said(octets) = piece {
            into.extend_from_slice(octets.as_slice())?;
        }
    }
    Ok(())
}

/// Puts what was said to a sink last, where anything was.
pub fn put_told<P: Peer>(
    alloc: Global,
    report: &mut Octets,
    name: &[u8],
    peer: P,
) -> Result<(), Memory> {
    let mut told = Octets::new(alloc);
    if let Some(past) = peer.part() {
        put_pieces(&mut told, &past)?;
    }
    if told.is_empty() {
        return Ok(());
    }
    report.extend_from_slice(name)?;
    put_text(report, told.as_slice())
}
