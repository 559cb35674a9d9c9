//! Frames of EMI/UCP 4.0 (docs/FORMATS.md, "Frames of UCP").
//!
//! `Pdu` is an operation or its result: its number, which of both it is, its two digits, and the text of its fields, borrowed.
//! `read_frame` says what stands at the front of octets (`Frame`), and takes no memory. `write_pdu` puts the frame of a PDU last.
//!
//! The one contract: the grammar of frames is a function from commands to octets (`specs/Grammar.antt`). `Whole` comes exactly where
//! a frame stands in front, `NeedMore` exactly where octets can follow that make one, and `Bad` else: at the first octet with which
//! none can, but at the checksum's first digit where one of its digits is wrong (`specs/Answers.antt`). What is written is the frame
//! of the PDU.
#![tactic(auto)]

pub mod frame;
mod head;
mod pdu;
mod write;

pub use frame::{Frame, read_frame};
pub use pdu::Pdu;
pub use write::write_pdu;
