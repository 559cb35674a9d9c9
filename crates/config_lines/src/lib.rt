//! The lines of a configuration: what each says, and the lines of a file with each include in its place.
//!
//! Its one contract: what is read is what stands in the files, line by line in the order of reading, up to the first fault.
#![tactic(auto)]

mod line;
mod read;
mod text;
mod value;

pub use line::{Line, LineFault, read_line};
pub use read::{LinesFault, PlacedLine, Read, read_lines};
