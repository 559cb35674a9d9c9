//! One part of a text.

use kn_base::Octets;

/// What goes out as one message.
#[derive(Drop)]
pub struct Part {
    /// Septets, octets or UCS-2 units, as the text was.
    pub body: Octets,
    /// How many parts there are, or 1 where they aren't to be joined.
    pub total: u8,
    /// Which of them this is, from 1, or 1 where they aren't to be joined.
    pub part: u8,
}
