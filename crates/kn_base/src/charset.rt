//! The charsets in which text comes in and goes out.

/// How the octets of a text are to be read.
#[derive(Clone, Copy, Debug, PartialEq)]
pub enum Charset {
    /// UTF-8 (RFC 3629).
    Utf8,
    /// ISO-8859-1, where each octet is the character of that number.
    Latin1,
    /// UTF-16 (RFC 2781), the high octet of each unit first, without a mark.
    Utf16Be,
}
