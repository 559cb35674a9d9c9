//! What ends of connections answer, and what they were.

use kn_base::{Items, Memory, Octets, Piece, Sink, Source, Take, Wrote, write_all, write_hex};
use line_cases::put_named;
use peer_dialer::Closed;

/// Takes once, and puts last what came: octets in hex, or a word.
pub fn put_take<S: Source>(source: &mut S, report: &mut Octets) -> Result<(), Memory> {
    let mut buffer = [0; 512];
    match source.take(&mut buffer) {
        Take::Bytes(count) => write_hex(report, &buffer[..count.min(512)]),
        Take::End => report.extend_from_slice(b"end"),
        Take::Quiet => report.extend_from_slice(b"quiet"),
        Take::Failed => report.extend_from_slice(b"failed"),
    }
}

/// Gives octets whole, and puts last what came of it.
pub fn put_give<S: Sink>(sink: &mut S, octets: &[u8], report: &mut Octets) -> Result<(), Memory> {
    match write_all(sink, octets) {
        Wrote::All => report.extend_from_slice(b"said"),
        Wrote::Failed { gone } => put_named(report, b"failed behind ", gone as u64),
    }
}

/// Puts the pieces of a talk last: `<` where it was heard and `>` where it was said, in hex.
fn put_pieces(report: &mut Octets, pieces: &Items<Piece>) -> Result<(), Memory> {
    for piece in pieces.as_slice() {
        let (side, octets) = match piece {
            Piece::Heard(octets) => (b" <", octets),
            Piece::Said(octets) => (b" >", octets),
        };
        report.extend_from_slice(side)?;
        write_hex(report, octets.as_slice())?;
    }
    Ok(())
}

/// Puts last what is known of a connection that is over: its counts, and its talk where that is told.
pub fn put_closed(report: &mut Octets, closed: &Closed) -> Result<(), Memory> {
    put_named(report, b"faults ", closed.faults)?;
    put_named(report, b", starved ", closed.starved)?;
    put_named(report, b", quiets ", closed.quiets)?;
    report.extend_from_slice(if closed.ended { b", ended" } else { b", open" })?;
    match &closed.pieces {
        Some(pieces) => put_pieces(report, pieces),
        None => report.extend_from_slice(b", not told"),
    }
}
