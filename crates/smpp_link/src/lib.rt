//! SMPP 3.4 as a link speaks it with its centre: as a transceiver, with a message in one submit_sm (docs/FORMATS.md, 'What SMPP says and hears').
//!
//! `SmppCore` is a `LinkCore`. It knows what a frame of `smpp_wire` means, and no octet of one.
//!
//! The one contract: what each command is heard as, and which command each thing is said by, are two functions (`specs/Hearing.antt`,
//! `specs/Saying.antt`), and `SmppCore` keeps to them and to the laws of a protocol.
#![tactic(auto)]

mod delivery;
mod hearing;
mod period;
mod receipt;
mod saying;
mod smpp_core;
mod status;
mod submitting;

pub use smpp_core::SmppCore;
