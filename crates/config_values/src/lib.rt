//! The values of a configuration's variables: what each may hold, and what it is read as.
//!
//! `Grammar` says which octets a variable may hold, and `holds` tries octets against it. `number_of`, `truth_of`, `entries_of` and
//! `sender_of` read a value that was tried as what it writes, and `characters` says how long a text is. `is_sendable_text` and
//! `is_text_octet` try a text that a message can come from, wherever it stands.
//!
//! Its one contract: a value holds exactly where the one definition of its grammar says so, and is read as that definition has it.
#![tactic(auto)]

mod grammar;
mod list;
mod number;
mod sender;
mod shape;
mod text;
mod truth;

pub use grammar::{Grammar, holds};
pub use list::entries_of;
pub use number::number_of;
pub use sender::{is_sendable_text, is_text_octet, sender_of};
pub use text::characters;
pub use truth::truth_of;
