//! The form of a sendsms request, and the messages that it comes to.
//!
//! `read_pairs` cuts a query into names and values (`Pair`), and `read_form` reads the variables of a user's request, in the order of
//! docs/FORMATS.md, into a `Form`, or says by the name of a variable (`Spot` of `http_text`) which is the first that holds what it may not.
//! A variable is one row: the line that reads it. `messages` splits the text of a form as the user may (`split` of `concat_split`), and
//! gives a message for each part and receiver.
//!
//! The one contract: a form is the one that the table's definition gives of the pairs, what is refused is refused at the first variable of
//! the table that is wrong, and the messages are those of the definition, which a store may always be handed.
#![tactic(auto)]

mod addresses;
mod delivery;
mod form;
mod header;
mod limits;
mod manner;
mod outgoing;
mod pairs;
mod reports;
mod text;
mod variable;

pub use form::{Form, read_form};
pub use outgoing::messages;
pub use pairs::{Pair, read_pairs, value};
pub use text::body_of;
