//! Listening once.

ghost use Rattle.std.specs.Prelude.{◌<◌, ◌≤◌, IfOk, length};
ghost use Rattle.peer_pieces.specs.Pieces.{HearsSo};

use crate::has_risen;
use kn_base::{Memory, Octets, Source, Take};
use std::alloc::Global;

/// How many octets are taken at once at most.
pub const PIECE_LIMIT: usize = 4_096;

/// What came of listening.
#[derive(Drop)]
pub enum Heard {
    /// These octets, one at least.
    Octets(Octets),
    /// Nothing came in time.
    Quiet,
    /// Nothing more comes.
    End,
    /// The peer failed.
    Fault,
    /// There was no memory to listen, or the peer had none; nothing was taken.
    Starved,
}

/// Takes the next octets, at most `most` of them and at most `PIECE_LIMIT`. The memory for them is taken first.
pub fn hear<S: Source>(alloc: Global, source: &mut S, most: u64) -> Heard
    requires { 0 < most }
    ensures { HearsSo most (S.course source.old) result (S.course source.new) }
{
    let Ok(mut buffer) = buffer(alloc, most) else {
        return Heard::Starved;
    };
    let starved = source.starved();
    match source.take(&mut buffer) {
        Take::Bytes(taken) => {
            buffer.truncate(taken);
            Heard::Octets(Octets::from_vec(buffer))
        }
        Take::End => Heard::End,
        Take::Quiet => Heard::Quiet,
        Take::Failed => {
            if has_risen(starved, source.starved()) {
                return Heard::Starved;
            }
            Heard::Fault
        }
    }
}

// Room for so many octets, or for as many as are taken at once.
fn buffer(alloc: Global, most: u64) -> Result<Vec<u8>, Memory>
    requires { 0 < most }
    ensures { IfOk result (λ buffer. (0 < length buffer.items) × (length buffer.items ≤ most)) }
{
    let room = (PIECE_LIMIT as u64).min(most) as usize;
    Ok(vec![in alloc; 0u8; room]?)
}
