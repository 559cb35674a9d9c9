//! The pieces of a talk, and what is known of a connection once it is over.

use crate::{Items, Octets};

/// Octets that came in or went out in one call.
#[derive(Drop)]
pub enum Piece {
    /// They were taken from the peer.
    Heard(Octets),
    /// They were given to the peer.
    Said(Octets),
}

/// A connection that is over.
#[derive(Drop)]
pub struct Past {
    /// What was heard and said, in order.
    pub pieces: Items<Piece>,
    /// How many calls failed.
    pub faults: u64,
    /// How many calls found no memory.
    pub starved: u64,
    /// How often nothing came in time.
    pub quiets: u64,
    /// Whether the peer had said that nothing more comes.
    pub ended: bool,
}
