//! The limits of a record's fields (docs/FORMATS.md, "Records").

/// Digits of a number (ITU-T E.164, section 6).
pub const MOST_DIGITS: u8 = 15;
/// Octets of an address that is a text.
pub const MOST_TEXT: u8 = 64;
/// Parts of one message.
pub const MOST_PARTS: u8 = 100;
/// Message classes (GSM 03.38, section 4) end here.
pub const LAST_CLASS: u8 = 3;
/// The sum of all kinds of reports.
pub const MOST_MASK: u8 = 31;
/// Minutes that a message is held or worth sending: thirty days.
pub const MOST_MINUTES: u64 = 43_200;
/// The last second that a message may be asked for at: below 2^37.
pub const LAST_TIME: u64 = 137_438_953_471;
/// Octets of a user data header, which is all that one short message can carry (GSM 03.40 9.2.3.16).
pub const MOST_HEADER: u8 = 140;
/// Octets of a body.
pub const MOST_BODY: u64 = 2_048;
/// Octets of an SMSC id, an account or a service.
pub const MOST_NAME: u8 = 64;
/// Octets of a URL.
pub const MOST_URL: u64 = 2_048;
