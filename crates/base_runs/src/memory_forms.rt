//! The forms in memory, which answer as their scripts say.

use crate::acts::{ClockActs, PeerActs, ShelfActs};
use kn_base::{Items, MemClock, MemPeer, MemShelf, MemTake, Memory, Octets, Past, Peer, Piece};
use line_cases::{
    both, cut_at, cut_item, numbers_of, octets_of, put_acts, put_last, put_named, put_text,
    words_of,
};
use std::alloc::Global;

/// An answer that a peer is to give: `quiet`, or octets.
fn take_of(alloc: Global, word: &[u8]) -> Result<MemTake, Memory> {
    if word == b"quiet".as_slice() {
        return Ok(MemTake::Quiet);
    }
    Ok(MemTake::Bytes(octets_of(alloc, word)?))
}

/// What a peer is to say.
fn takes_of(alloc: Global, text: &[u8]) -> Result<Vec<MemTake>, Memory> {
    let mut takes = Vec::new(alloc);
    for word in words_of(alloc, text)?.iter() {
        put_last(&mut takes, take_of(alloc, word))?;
    }
    Ok(takes)
}

/// Puts the pieces of a talk last: `<` where it was heard and `>` where it was said.
fn put_pieces(report: &mut Octets, pieces: &Items<Piece>) -> Result<(), Memory> {
    for piece in pieces.as_slice() {
        let (side, octets) = match piece {
            Piece::Heard(octets) => (b" <", octets),
            Piece::Said(octets) => (b" >", octets),
        };
        report.extend_from_slice(side)?;
        put_text(report, octets.as_slice())?;
    }
    Ok(())
}

/// Puts last what is known of a connection that is over.
fn put_past(report: &mut Octets, past: &Past) -> Result<(), Memory> {
    put_named(report, b"faults ", past.faults)?;
    put_named(report, b", starved ", past.starved)?;
    put_named(report, b", quiets ", past.quiets)?;
    report.extend_from_slice(if past.ended {
        b", ended |"
    } else {
        b", not ended |"
    })?;
    put_pieces(report, &past.pieces)
}

/// Closes a connection, and puts last what it was, where it is told.
pub fn put_end<P: Peer>(peer: P, report: &mut Octets) -> Result<(), Memory> {
    match peer.part() {
        Some(past) => put_past(report, &past),
        None => report.extend_from_slice(b"not told"),
    }
}

/// `peer SAYS .. | FAILING .. | ACTS ..`: a peer that says these, and whose calls of these numbers fail.
pub fn put_peer(alloc: Global, text: &[u8], report: &mut Octets) -> Result<(), Memory> {
    let (says, text) = cut_item(text);
    let (failing, acts) = cut_item(text);
    let (says, failing) = both(takes_of(alloc, says), numbers_of(alloc, failing))?;
    put_ended(alloc, MemPeer::new(alloc, says, failing), acts, report)
}

/// Puts last what acts on a peer came to, and what it was in the end.
fn put_ended<P: Peer + Drop>(
    alloc: Global,
    peer: P,
    acts: &[u8],
    report: &mut Octets,
) -> Result<(), Memory> {
    let mut on = PeerActs { peer };
    put_acts(alloc, &mut on, acts, report)?;
    put_end(on.peer, report)
}

/// `clock ANSWER .. | ACTS .. | ACTS ..`: a clock with these answers, and then the same anew.
pub fn put_clock(alloc: Global, text: &[u8], report: &mut Octets) -> Result<(), Memory> {
    let (answers, text) = cut_item(text);
    let (first, second) = cut_item(text);
    let clock = MemClock::new(alloc, numbers_of(alloc, answers)?);
    let mut on = ClockActs { clock };
    put_acts(alloc, &mut on, first, report)?;
    let mut again = ClockActs {
        clock: on.clock.anew(),
    };
    report.extend_from_slice(b"anew ")?;
    put_acts(alloc, &mut again, second, report)
}

/// A name and a text, on both sides of `=`.
fn file_of(alloc: Global, text: &[u8]) -> Result<(Octets, Octets), Memory> {
    let (name, text) = cut_at(text, b'=');
    both(octets_of(alloc, name), octets_of(alloc, text))
}

/// The files of a shelf.
fn files_of(alloc: Global, text: &[u8]) -> Result<Vec<(Octets, Octets)>, Memory> {
    let mut files = Vec::new(alloc);
    for word in words_of(alloc, text)?.iter() {
        put_last(&mut files, file_of(alloc, word))?;
    }
    Ok(files)
}

/// `shelf NAME=TEXT .. | FAILING .. | NAME ..`: a shelf with these files, whose calls of these numbers fail.
pub fn put_shelf(alloc: Global, text: &[u8], report: &mut Octets) -> Result<(), Memory> {
    let (files, text) = cut_item(text);
    let (failing, names) = cut_item(text);
    let (files, failing) = both(files_of(alloc, files), numbers_of(alloc, failing))?;
    let shelf = MemShelf::new(alloc, files, failing);
    put_acts(alloc, &mut ShelfActs { shelf }, names, report)
}
