//! What is known of a connection that is over.

ghost use Rattle.std.specs.Prelude.{◌≡◌, Some};
ghost use Rattle.kn_base.specs.Talk.{counts_of};
ghost use Rattle.peer_dialer.specs.Closed.{counts_in, IsClosed};

use kn_base::{Items, MemPeer, Past, Peer, Piece};

/// A connection that is over.
#[derive(Drop)]
pub struct Closed {
    /// What was heard and said, in order, where that is told.
    pub pieces: Option<Items<Piece>>,
    /// How many calls failed.
    pub faults: u64,
    /// How many calls found no memory.
    pub starved: u64,
    /// How often nothing came in time.
    pub quiets: u64,
    /// Whether the peer had said that nothing more comes.
    pub ended: bool,
}

impl Closed {
    /// The same of a past, whose talk is told.
    pub fn told(past: Past) -> Closed
        ensures pieces { result.pieces ≡ Some past.pieces }
        ensures counts { counts_in result ≡ counts_of past }
    {
        Closed {
            pieces: Some(past.pieces),
            faults: past.faults,
            starved: past.starved,
            quiets: past.quiets,
            ended: past.ended,
        }
    }

    /// One of which nothing was counted, and nothing is told.
    pub fn untold() -> Closed {
        Closed {
            pieces: None,
            faults: 0,
            starved: 0,
            quiets: 0,
            ended: false,
        }
    }
}

/// A peer whose counts are told when it is over, whether its talk is or not.
pub trait Counted: Peer {
    /// Closes the connection, and gives what it was.
    fn close(self) -> Closed
        ensures { IsClosed (Self.course self) result };
}

impl Counted for MemPeer {
    fn close(self) -> Closed {
        match self.part() {
            Some(past) => Closed::told(past),
            None => Closed::untold(),
        }
    }
}
