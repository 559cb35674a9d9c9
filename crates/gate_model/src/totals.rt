//! What a store counts.

/// What a store counts. `waiting`, `awaited`, `jobs` and `arrivals` are held now, and the others count from its birth. Each count stands
/// still at 2^64 - 1.
#[derive(Clone, Copy)]
pub struct Totals {
    /// Messages that were accepted.
    pub accepted: u64,
    /// Messages that a centre took.
    pub acked: u64,
    /// Messages that were given up.
    pub rejected: u64,
    /// Messages that wait to be sent.
    pub waiting: u64,
    /// Messages of which a report is awaited.
    pub awaited: u64,
    /// Reports that belonged to no message.
    pub unmatched: u64,
    /// Calls of URLs that are still to be made.
    pub jobs: u64,
    /// Calls of URLs that were made.
    pub called: u64,
    /// Calls of URLs that were given up.
    pub dropped: u64,
    /// Messages that came from centres.
    pub arrived: u64,
    /// Messages of centres that are still to be answered.
    pub arrivals: u64,
    /// Entries that were recorded.
    pub entries: u64,
}
