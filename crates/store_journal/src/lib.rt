//! The store of the gateway: a list of payloads, kept on a disk of three areas.
//!
//! `Journal` hands out the payloads that stand on a disk, in order, and appends to them. A fault of the disk may leave the payload of an
//! append unsure, until a repair.
//! Its one contract: whatever a stop leaves of the disk, what the next opening hands out is what was appended with `Ok`, in order, and
//! maybe the unsure payload, last.
#![tactic(auto)]

mod area_text;
mod birth;
mod commit;
mod fault;
mod found;
mod header;
mod journal;
mod pick;
mod unit;

pub use fault::OpenFault;
pub use journal::Journal;
