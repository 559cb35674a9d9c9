//! Copies of what became of a connection.

ghost use Rattle.std.specs.Prelude.{◌≡◌, IfOk};

use crate::Closed;
use kn_base::{Items, Memory, Octets, Piece};
use std::alloc::Global;

fn copy_piece(alloc: Global, piece: &Piece) -> Result<Piece, Memory>
    ensures { IfOk result (λ copy. copy ≡ piece.now) }
{
    match piece {
        Piece::Heard(octets) => Ok(Piece::Heard(Octets::from_slice(alloc, octets.as_slice())?)),
        Piece::Said(octets) => Ok(Piece::Said(Octets::from_slice(alloc, octets.as_slice())?)),
    }
}

fn copy_pieces(alloc: Global, pieces: &[Piece]) -> Result<Items<Piece>, Memory>
    ensures { IfOk result (λ copy. copy ≡ pieces.now) }
{
    let mut copy = Items::new(alloc);
    for piece in pieces {
        copy.push(copy_piece(alloc, piece)?)?;
    }
    Ok(copy)
}

fn copy_talk(alloc: Global, talk: &Option<Items<Piece>>) -> Result<Option<Items<Piece>>, Memory>
    ensures { IfOk result (λ copy. copy ≡ talk.now) }
{
    match talk {
        Some(pieces) => Ok(Some(copy_pieces(alloc, pieces.as_slice())?)),
        None => Ok(None),
    }
}

/// A copy of what a connection was.
pub(crate) fn copy_closed(alloc: Global, closed: &Closed) -> Result<Closed, Memory>
    ensures { IfOk result (λ copy. copy ≡ closed.now) }
{
    let pieces = copy_talk(alloc, &closed.pieces)?;
    Ok(Closed {
        pieces,
        faults: closed.faults,
        starved: closed.starved,
        quiets: closed.quiets,
        ended: closed.ended,
    })
}
