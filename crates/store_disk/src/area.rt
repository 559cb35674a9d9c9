//! The names of the three areas of a disk.

/// One of the three areas of a disk. `A` and `B` hold payloads, and `Pick` says which of the two counts.
#[derive(Clone, Copy, Debug, PartialEq)]
pub enum Area {
    /// The first area of payloads.
    A,
    /// The second area of payloads.
    B,
    /// The area whose first octet says which of the other two counts.
    Pick,
}
