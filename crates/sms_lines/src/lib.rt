//! Messages as lines of cases: their addresses, their codings, and the whole of them.
#![tactic(auto)]

mod address;
mod message;
mod names;

pub use address::put_address;
pub use message::put_sms;
pub use names::{charset_name, coding_name, coding_of, put_hex, put_octets};
