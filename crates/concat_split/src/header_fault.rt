//! Why a header could not be read.

/// Why octets are no user data header.
#[derive(Clone, Copy, Debug, PartialEq)]
pub enum HeaderFault {
    /// The first `at` octets begin a header, and the first `at + 1` don't, or there are no more.
    Malformed { at: usize },
}
