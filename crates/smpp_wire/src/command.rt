//! The ids of the commands whose bodies are read by a row of their own (SMPP 3.4, 5.1.2.1).

/// Answers what isn't known (4.3.1).
pub const GENERIC_NACK: u32 = 0x8000_0000;
/// A message for the centre (4.4.1).
pub const SUBMIT_SM: u32 = 0x0000_0004;
/// Answers `SUBMIT_SM` (4.4.2).
pub const SUBMIT_SM_RESP: u32 = 0x8000_0004;
/// A message or a report of the centre (4.6.1).
pub const DELIVER_SM: u32 = 0x0000_0005;
/// Answers `DELIVER_SM` (4.6.2).
pub const DELIVER_SM_RESP: u32 = 0x8000_0005;
/// Ends a session (4.2.1).
pub const UNBIND: u32 = 0x0000_0006;
/// Answers `UNBIND` (4.2.2).
pub const UNBIND_RESP: u32 = 0x8000_0006;
/// Begins a session in both directions (4.1.5).
pub const BIND_TRANSCEIVER: u32 = 0x0000_0009;
/// Answers `BIND_TRANSCEIVER` (4.1.6).
pub const BIND_TRANSCEIVER_RESP: u32 = 0x8000_0009;
/// Asks whether the other side is there (4.11.1).
pub const ENQUIRE_LINK: u32 = 0x0000_0015;
/// Answers `ENQUIRE_LINK` (4.11.2).
pub const ENQUIRE_LINK_RESP: u32 = 0x8000_0015;
