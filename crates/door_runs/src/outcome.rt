//! What a run of `door` came to, as far as its user sees it.

use kn_base::{Memory, Octets, Past, Peer, Piece, write_decimal, write_hex};
use line_cases::{put_named, put_text};
use std::alloc::Global;
use store_disk::{Area, MemDisk};

/// What a run left.
#[derive(Drop)]
pub struct Outcome {
    pub status: u8,
    /// What was said to the visitor.
    pub said: Octets,
    /// Whether a call of the visitor failed.
    pub visitor_failed: bool,
    /// What was written to standard output, which isn't the visitor.
    pub out: Octets,
    /// Whether a call of that failed.
    pub output_failed: bool,
    /// What was written to standard error.
    pub told: Octets,
    /// The disk's areas, as they are reported.
    pub areas: Octets,
    /// Whether a call of the disk failed.
    pub disk_failed: bool,
}

impl Outcome {
    /// Nothing was done yet.
    pub fn new(alloc: Global) -> Outcome {
        Outcome {
            status: 0,
            said: Octets::new(alloc),
            visitor_failed: false,
            out: Octets::new(alloc),
            output_failed: false,
            told: Octets::new(alloc),
            areas: Octets::new(alloc),
            disk_failed: false,
        }
    }
}

/// Puts the octets that were said in a talk last.
fn put_pieces(into: &mut Octets, past: &Past) -> Result<(), Memory> {
    for piece in past.pieces.as_slice() {
        if let Piece::Said(octets) = piece {
            into.extend_from_slice(octets.as_slice())?;
        }
    }
    Ok(())
}

/// Puts the octets that were said to a peer last. Whether a call failed.
pub fn put_said<P: Peer>(into: &mut Octets, peer: P) -> Result<bool, Memory> {
    match peer.part() {
        Some(past) => {
            put_pieces(into, &past)?;
            Ok(past.faults > 0)
        }
        None => Ok(false),
    }
}

/// Puts the status, and what was said and told.
pub fn put_outcome(into: &mut Octets, outcome: &Outcome) -> Result<(), Memory> {
    put_status(into, outcome)?;
    put_spoken(into, outcome)?;
    put_part(into, b" | out ", outcome.out.as_slice())?;
    put_told(into, outcome)
}

/// More octets that were said are counted, and not written.
const MOST_SAID: usize = 1_000;

/// Puts what was said to the visitor.
fn put_spoken(into: &mut Octets, outcome: &Outcome) -> Result<(), Memory> {
    if outcome.said.len() <= MOST_SAID {
        return put_part(into, b" | said ", outcome.said.as_slice());
    }
    put_named(into, b" | said so many octets: ", outcome.said.len() as u64)
}

/// Puts the status.
pub fn put_status(into: &mut Octets, outcome: &Outcome) -> Result<(), Memory> {
    put_named(into, b"    ", u64::from(outcome.status))
}

/// Puts what was written to standard error.
pub fn put_told(into: &mut Octets, outcome: &Outcome) -> Result<(), Memory> {
    put_part(into, b" | told ", outcome.told.as_slice())
}

/// Puts a part of a line, where there is something.
fn put_part(into: &mut Octets, name: &[u8], octets: &[u8]) -> Result<(), Memory> {
    if octets.is_empty() {
        return Ok(());
    }
    into.extend_from_slice(name)?;
    put_text(into, octets)
}

/// Puts how many octets each area of a disk holds, and where they are shown, these octets.
pub fn put_disk(into: &mut Octets, disk: &MemDisk, shown: bool) -> Result<(), Memory> {
    into.extend_from_slice(b" | areas")?;
    for area in [Area::A, Area::B, Area::Pick] {
        into.push(b' ')?;
        write_decimal(into, disk.area(area).len() as u64)?;
        if shown {
            into.push(b' ')?;
            write_hex(into, disk.area(area))?;
        }
    }
    Ok(())
}
