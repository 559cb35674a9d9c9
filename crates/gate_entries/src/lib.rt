//! What the gate's store records: one type a kind of entry, and the octets of each.
//!
//! `Recorded` is an entry that is kept: messages were taken (`Accept`), what a centre said of them (`Acked`, `Rejected`, `Reported`),
//! messages that came from a centre and their replies (`Arrived`, `Answered`), and URLs that were called (`Called`, `CallDropped`).
//! `Passing` is what happens between them and isn't kept, so it has no octets.
//!
//! The first octet of an entry is its kind. The octets are all of the entry: nothing may stand behind it.
//!
//! The one contract: an entry reads back. What is read is spelled so, octet for octet, and each `RecordFault` says exactly what
//! the octets are: a proper front of an entry, or octets that go wrong at a place. Each writer stands beside its reader, and the size
//! of an entry is known before it is written.
#![tactic(auto)]

mod accept;
mod acked;
mod answered;
mod arrived;
mod call_dropped;
mod called;
mod cause;
mod fields;
pub mod limits;
mod messages;
mod passing;
mod recorded;
mod rejected;
mod reported;
mod size;

pub use accept::{Accept, read_accept, write_accept};
pub use acked::Acked;
pub use answered::Answered;
pub use arrived::Arrived;
pub use call_dropped::{CallDropped, DropCause};
pub use called::Called;
pub use cause::Cause;
pub use exact_octets::RecordFault;
pub use passing::Passing;
pub use recorded::{Recorded, read_entry, write_entry};
pub use rejected::Rejected;
pub use reported::Reported;
pub use size::entry_size;
