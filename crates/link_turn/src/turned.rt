//! What came of a turn.

use crate::EndCause;

/// What came of a turn of a session.
#[derive(Clone, Copy, Drop)]
pub enum Turned {
    /// The session goes on. So many octets were heard in the turn: none where it was the first, or where nothing came in time.
    On { heard: u64 },
    /// It ended.
    Ended(EndCause),
}
