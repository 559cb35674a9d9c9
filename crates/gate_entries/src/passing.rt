//! What happens between the entries that are kept.

/// A change that the gate knows of as long as it runs. None is kept: a store that is opened has no link up and nothing taken.
#[derive(Clone, Copy)]
pub enum Passing {
    /// A link can send.
    Up { link: u32 },
    /// A link can't send.
    Down { link: u32 },
    /// A link took a message at a time in Unix seconds.
    Took { link: u32, message: u64, time: u64 },
    /// A message that a link took waits again.
    Returned { message: u64 },
    /// A job was taken.
    TookJob { job: u64 },
    /// A job that was taken waits again.
    ReturnedJob { job: u64 },
    /// An arrival was taken.
    TookArrival { arrival: u64 },
    /// An arrival that was taken waits again.
    ReturnedArrival { arrival: u64 },
}
