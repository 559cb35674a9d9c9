//! Why a session ends.

/// Why a session of a link, or a visit of a box, ended.
#[derive(Clone, Copy, Drop)]
pub enum EndCause {
    /// The other side ended the connection.
    PeerEnd,
    /// A take or a give failed: the peer's count of faults rose.
    PeerFault,
    /// The centre answered the login with this code, which isn't 0.
    LoginRefused { code: u32 },
    /// The octets behind the last frame that was dealt with begin no frame. `at` is the place in them that the protocol names for it, counted
    /// from 0, and `code` its reason.
    BadFrame { at: u64, code: u32 },
    /// What was said with this tag at the reading `sent` wasn't answered by the reading `now`, both in Unix seconds.
    NoReply { tag: u32, sent: u64, now: u64 },
    /// The disk failed while an entry was recorded.
    Disk,
    /// As many entries are recorded as ever may be.
    Full,
    /// There was no memory.
    Memory,
    /// The other side said that it ends the session.
    Bye,
    /// The session was told to stop.
    Closed,
    /// So many octets were taken, as many as may be, and no end came.
    Budget { taken: u64 },
    /// So many turns in a row nothing came in time.
    QuietLimit { turns: u32 },
}
