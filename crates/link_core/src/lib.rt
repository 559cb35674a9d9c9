//! What a link's protocol is to the session that speaks it, whichever it is.
//!
//! `LinkCore` is a protocol: it reads what a centre says (`Heard`, with its `Verdict`) and writes what is said to it (`Out`), and knows no
//! connection and no store. What protocols share stands here too: the message that a frame becomes (`arrival`), its coding and class
//! (`read_dcs`, `dcs_of`), and how long a message is still worth sending (`minutes_left`).
//!
//! The one contract: a protocol is a relation between octets and what they say, of which no frame begins another. Whole, more needed
//! and bad come each exactly where they are true of it, what is written is one frame of it with its own tag, and tags come back only after
//! all the others.
#![tactic(auto)]

mod arriving;
mod dcs;
mod framed;
mod heard;
mod link;
mod out;
mod validity;
mod verdict;

pub use arriving::{arrival, heard_address, heard_body};
pub use dcs::{dcs_of, read_dcs};
pub use framed::Framed;
pub use heard::Heard;
pub use link::LinkCore;
pub use out::Out;
pub use validity::minutes_left;
pub use verdict::Verdict;
