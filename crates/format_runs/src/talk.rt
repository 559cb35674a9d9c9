//! What was said to a peer.

use kn_base::{Memory, Octets, Past, Peer, Piece};
use line_cases::{put_named, put_text};

/// Puts last what was said to a peer, a bar before each piece. Whether a call of it failed.
pub fn put_said<P: Peer>(peer: P, report: &mut Octets) -> Result<bool, Memory> {
    match peer.part() {
        Some(past) => {
            put_pieces(report, &past)?;
            Ok(past.faults > 0)
        }
        None => {
            report.extend_from_slice(b" | not told")?;
            Ok(false)
        }
    }
}

/// Puts last what was said in a talk.
fn put_pieces(report: &mut Octets, past: &Past) -> Result<(), Memory> {
    for piece in past.pieces.as_slice() {
        if let Piece::Said(octets) = piece {
            report.extend_from_slice(b" | ")?;
            put_text(report, octets.as_slice())?;
        }
    }
    Ok(())
}

/// Puts last how many octets each piece of a talk has, in their order, and whether they were heard or said.
pub fn put_order<P: Peer>(peer: P, report: &mut Octets) -> Result<(), Memory> {
    let Some(past) = peer.part() else {
        return report.extend_from_slice(b" | not told");
    };
    for piece in past.pieces.as_slice() {
        match piece {
            Piece::Heard(octets) => put_named(report, b" | heard ", octets.len() as u64)?,
            Piece::Said(octets) => put_named(report, b" | said ", octets.len() as u64)?,
        }
    }
    Ok(())
}
