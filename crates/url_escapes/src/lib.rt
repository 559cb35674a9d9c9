//! Templates of URLs and texts, in which escapes stand for what a message or a report is.
//!
//! `Facts` holds what each escape stands for, and `Style` says how that is written. `expand` puts the values in the places
//! of the escapes; `internal_id` is the text of an internal id, and `split_words` finds the words of a text.
//!
//! The one contract: the text is the template with each escape by its row, and a word that was used is used once.
#![tactic(auto)]

mod date;
mod escape;
mod expansion;
mod facts;
mod identity;
mod style;
mod value;
mod words;

pub use expansion::expand;
pub use facts::Facts;
pub use identity::internal_id;
pub use style::Style;
pub use words::{first_word, split_words};
