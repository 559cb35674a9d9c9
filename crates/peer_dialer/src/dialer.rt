//! Who makes connections.

ghost use Rattle.peer_dialer.specs.Dealings.{Dealings, Dials, Parts};

use crate::Closed;
use kn_base::Peer;

/// What a dial answers.
#[derive(Drop)]
pub enum Dialed<P> {
    /// A connection that has made no call yet.
    Peer(P),
    /// None could be made. The count of faults rose.
    Failed,
    /// No peer is left, and none ever will be. Only a dialer that has a list of them answers so.
    Gone,
}

/// Connections by host and port.
pub trait Dialer {
    /// One end of a connection. It goes back to the dialer when it is over.
    type P: Peer;

    /// What it has dealt with so far.
    ghost dealings: { Self → Dealings };

    /// Makes a connection.
    fn dial(&mut self, host: &[u8], port: u16) -> Dialed<Self::P>
        ensures { Dials Self.P.course host.now port result (dealings self.old) (dealings self.new) };

    /// Closes a connection, and gives what it was: its counts, and its talk where that is told.
    fn back(&mut self, peer: Self::P) -> Closed
        ensures { Parts (Self.P.course peer) result (dealings self.old) (dealings self.new) };
}
