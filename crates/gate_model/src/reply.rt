//! What a store answers to a message that it was handed.

/// A message was recorded.
#[derive(Clone, Copy)]
pub enum Reply {
    /// Messages were accepted: `count` of them, numbered from `first`. `queued` says that no link that
    /// could take the first of them is up.
    Accepted {
        first: u64,
        count: u32,
        queued: bool,
    },
    /// Something else was noted. `matched` says whether it belonged to a message.
    Noted {
        matched: bool,
    },
}

/// A message was not recorded.
#[derive(Clone, Copy)]
pub enum Refusal {
    /// No link may carry this part.
    NoRoute { part: u32 },
    /// The queue holds so many, and may hold no more than its limit.
    Full { held: u64, limit: u64 },
    /// A disk call failed: its count rose.
    Disk,
    /// There was no memory.
    Memory,
}
