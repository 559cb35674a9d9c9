//! Octets read exactly: what the formats of the gateway are made of.
//!
//! A format is a grammar of values (which values there are), their spelling (the octets of each), and a reader. A reader takes
//! octets from left to right and gives the value that stands at the front and what stands behind it, or the first fault
//! (`ReadFault`). Here are the readers and writers of fields: an octet (`octet_at`), a number (`number_at`), octets of an
//! alphabet (`octets_at`), octets behind their number (`short_at`, `counted_at`, `put_short`, `put_long`). What was read is told
//! by `told_first` and `told_all` to those who have all of the octets (`RecordFault`).
//!
//! The one contract: a reader does what its definition in `specs/Reading.antt` does, and the laws in `proofs/` say of any
//! definition that is made of these that it is exact: what is read is spelled so, octet for octet, what is spelled so is
//! read, whatever follows, and a fault stands at the first octet with which no spelling goes on.
#![tactic(auto)]

mod alphabet;
mod number;
mod octet;
mod outcome;
mod read_fault;
mod record_fault;
mod text;

pub use alphabet::Alphabet;
pub use number::{Numbers, number_at};
pub use octet::{any_octet_at, named, octet_at};
pub use outcome::{told_all, told_first};
pub use read_fault::ReadFault;
pub use record_fault::RecordFault;
pub use text::{counted_at, octets_at, put_long, put_short, short_at};
