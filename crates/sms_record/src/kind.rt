//! The kinds of delivery reports, with the values of their bits in a message's mask.

/// What became of a message, as a report says.
#[derive(Clone, Copy)]
pub enum Kind {
    /// Delivered to the phone.
    Delivered = 1,
    /// Not delivered to the phone.
    Undelivered = 2,
    /// Queued on the centre.
    Buffered = 4,
    /// Handed to the centre.
    Sent = 8,
    /// Not taken by the centre.
    Refused = 16,
}
