//! The numbers of SMPP 3.4 that bound a frame and its fields.

/// How many octets the header has: four numbers of four octets (3.2).
pub const HEADER_LEN: u64 = 16;
/// The most octets of a frame. Greater lengths are refused.
pub const MOST_FRAME: u64 = 65_536;
/// The version that a bind names: 3.4 (5.2.4).
pub const INTERFACE_VERSION: u8 = 0x34;
/// The most octets of a short message (5.2.21).
pub const MOST_SHORT_MESSAGE: u8 = 254;
/// How many octets an optional parameter with an empty value has: two of tag, two of length (3.2.4.1).
pub const EMPTY_TLV_LEN: usize = 4;
