//! What a gate has counted.

/// What a gate has counted, and the last numbers that it gave.
#[derive(Clone, Copy)]
pub(crate) struct Counts {
    pub(crate) accepted: u64,
    pub(crate) acked: u64,
    pub(crate) rejected: u64,
    pub(crate) unmatched: u64,
    pub(crate) called: u64,
    pub(crate) dropped: u64,
    pub(crate) arrived: u64,
    pub(crate) entries: u64,
    pub(crate) last_message: u64,
    pub(crate) last_job: u64,
    pub(crate) last_arrival: u64,
}

impl Counts {
    /// Nothing was counted, and no number given.
    pub(crate) const NONE: Counts = Counts {
        accepted: 0,
        acked: 0,
        rejected: 0,
        unmatched: 0,
        called: 0,
        dropped: 0,
        arrived: 0,
        entries: 0,
        last_message: 0,
        last_job: 0,
        last_arrival: 0,
    };
}
