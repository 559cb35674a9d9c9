//! One short message with all that the gateway keeps of it, and the octets that it is kept as.
//!
//! `Sms` is the message: from whom (`Address`), how its body is coded (`Coding`), which reports are asked for (`Kind`).
//! Its octets are its record, which `read_sms` and `write_sms` know alone, and `sms_at` and `put_sms` among other things. `header` reads
//! the user data header, a message's own and any other.
//!
//! The one contract: a record reads back, whatever octets follow it. What is read is spelled so, octet for octet, and
//! each `RecordFault` says exactly what the octets are: a proper front of a record, or octets that go wrong at a place.
#![tactic(auto)]

mod address;
mod coding;
pub mod header;
mod kind;
pub mod limits;
mod record;
mod sms;

pub use address::{Address, copy_address};
pub use coding::Coding;
pub use exact_octets::RecordFault;
pub use kind::Kind;
pub use record::{copy_sms, put_sms, read_sms, sms_at, write_sms};
pub use sms::Sms;
