//! The limits of an entry's fields (docs/FORMATS.md, "Entries").

/// Messages of one entry.
pub const MOST_MESSAGES: u64 = 5_000;
/// Arrivals that one entry answers.
pub const MOST_ARRIVALS: u64 = 255;
/// Octets of an SMSC id, a foreign id or a text.
pub const MOST_TEXT: u64 = 2_048;
