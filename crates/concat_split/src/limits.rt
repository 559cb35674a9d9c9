//! How a text may be split.

use kn_base::Octets;

/// What a user or service may have of parts, and what stands round the text of each. The texts are in the body's coding.
#[derive(Drop)]
pub struct Limits {
    /// How many parts a message may have, 1 to 100.
    pub parts: u8,
    /// Whether the parts have the element by which a phone joins them (GSM 03.40 9.2.3.24.1).
    pub concatenate: bool,
    /// Whole characters after which a part may end, or nothing.
    pub split_chars: Octets,
    /// What stands behind the text of each part but the last.
    pub suffix: Octets,
    /// What stands at the front of each part.
    pub header: Octets,
    /// What stands at the end of each part.
    pub footer: Octets,
}
