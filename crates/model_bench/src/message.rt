//! The message that each entry hands in.

use kn_base::{Memory, Octets};
use std::alloc::Global;

/// The entry's kind, its time, and that it hands in one message.
const ENTRY: &[u8] = b"\x01\x00\x00\x00\x00\x65\x53\xF1\x00\x00\x01";

/// From 12345 to +385911234567.
const ADDRESSES: &[u8] = b"\x00\x0512345\x01\x0C385911234567";

/// Seven bits, without a class, one part.
const FORM: &[u8] = b"\x00\xFF\x00\x01\x01";

/// No end, not held back, and the time.
const TIMES: &[u8] = b"\x00\x00\x00\x00\x00\x00\x00\x00\x00\x00\x00\x00\x65\x53\xF1\x00";

/// No header, a body of 24 septets, and no SMSC id.
const BODY: &[u8] = b"\x00\x00\x18Your code is 3041 today.\x00";

/// Which reports a message asks for.
#[derive(Clone, Copy)]
pub(crate) enum Asked {
    Nothing,
    /// Delivered and buffered.
    Reports,
}

impl Asked {
    /// The octet of the mask.
    fn mask(self) -> &'static [u8] {
        match self {
            Asked::Nothing => b"\x00",
            Asked::Reports => b"\x05",
        }
    }

    /// The URL, its length in front, and behind it no account and no service.
    fn url(self) -> &'static [u8] {
        match self {
            Asked::Nothing => b"\x00\x00\x00\x00",
            Asked::Reports => b"\x00\x25http://localhost/report?id=%F&kind=%d\x00\x00",
        }
    }
}

/// When the message is handed in, and when a link takes it, in Unix seconds.
pub(crate) const NOW: u64 = 1_700_000_000;

/// The octets of an entry that hands in one plain message.
pub(crate) fn payload_of(alloc: Global, asked: Asked) -> Result<Octets, Memory> {
    let mut payload = Octets::from_slice(alloc, ENTRY)?;
    payload.extend_from_slice(ADDRESSES)?;
    payload.extend_from_slice(FORM)?;
    payload.extend_from_slice(asked.mask())?;
    payload.extend_from_slice(TIMES)?;
    payload.extend_from_slice(BODY)?;
    payload.extend_from_slice(asked.url())?;
    Ok(payload)
}
