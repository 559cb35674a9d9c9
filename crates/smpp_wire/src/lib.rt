//! Frames of SMPP 3.4 (docs/FORMATS.md, "Frames of SMPP 3.4").
//!
//! `Pdu` is a command: the numbers of its header but the length, and its fields (`Body`), borrowed. `read_frame` says what stands at
//! the front of octets (`Frame`), and takes no memory. `write_pdu` puts the frame of a command last. `command` names the ids.
//!
//! The one contract: the grammar of frames is a function from commands to octets (`specs/Grammar.antt`). `Whole` comes exactly where
//! a frame stands in front, `NeedMore` exactly where octets can follow that make one, and `Bad` else, at the first octet with which
//! none can. What is written is the frame of the command. No frame begins another, so a stream gives the same frames in whichever
//! pieces it comes.
//!
//! A body has just the octets that the length says. So each field is read by how many are left for it and those behind it: a `Room`
//! says which numbers of octets these can fill.
#![tactic(auto)]

mod body;
pub mod command;
pub mod frame;
mod header;
pub mod limits;
mod party;
mod pdu;
mod room;
mod row;
mod short_message;
mod text;
mod tlv;
mod write;

pub use frame::{Frame, read_frame};
pub use pdu::{Body, Pdu};
pub use tlv::{tlv_value, write_tlv};
pub use write::write_pdu;
