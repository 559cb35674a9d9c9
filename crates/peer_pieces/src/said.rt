//! Saying octets.

ghost use Rattle.peer_pieces.specs.Pieces.{SaysSo};

use crate::has_risen;
use kn_base::{Sink, Wrote, write_all};

/// What came of saying octets.
#[derive(Clone, Copy)]
pub enum Said {
    /// All of them went out.
    Whole,
    /// A front of them went out, and the peer failed.
    Fault,
    /// A front of them went out, and the peer had no memory.
    Starved,
}

/// Says octets, in as many pieces as it takes. It takes no memory.
pub fn say<S: Sink>(sink: &mut S, octets: &[u8]) -> Said
    ensures { SaysSo octets.now (S.course sink.old) result (S.course sink.new) }
{
    let starved = sink.starved();
    match write_all(sink, octets) {
        Wrote::All => Said::Whole,
        Wrote::Failed { .. } => {
            if has_risen(starved, sink.starved()) {
                return Said::Starved;
            }
            Said::Fault
        }
    }
}
