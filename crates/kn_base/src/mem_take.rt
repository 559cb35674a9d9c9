//! What a peer in memory is to say.

use crate::Octets;

/// What a peer in memory answers to takes.
#[derive(Drop)]
pub enum MemTake {
    /// These octets, in as many takes as the buffers ask for. Without octets it is passed over.
    Bytes(Octets),
    /// That nothing came in time.
    Quiet,
}
