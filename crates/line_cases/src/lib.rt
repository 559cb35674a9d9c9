//! Cases that are lines of text. A program of tests reads them on standard input and writes each again, with what it came
//! to below it, and that is compared with what stands in the program's `stdout`. So a further case is a line, and costs no proof.
#![tactic(auto)]

mod acts;
mod escape;
mod program;
mod report;
mod words;

pub use acts::{Acts, both, put_acts, put_last};
pub use escape::{octets_of, put_text};
pub use program::{Cases, run_lines};
pub use report::{put_named, put_new};
pub use words::{cut_at, cut_item, number, numbers_of, octet, unpadded, words_of};
