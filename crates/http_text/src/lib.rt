//! The text of HTTP: the head of a request, and a response.
//!
//! `read_head` reads the head at the front of octets (`Head`, `HeadRead`), and looks at the first `HEAD_LIMIT` of them alone;
//! a head has at most `LINE_LIMIT` header lines. `read_more` reads one that comes in pieces, and goes on from where the octets
//! before ended (`Place`). `write_response` gives the text of a `Response`: status line, fields and body; `write_answer` that of an
//! `Answer`, one row an answer. What a request asks for, and which answer it gets, is known above.
//!
//! The one contract: a head is read exactly where one stands, octets are refused only where no head can come of them, and
//! more are asked for only where one can come or they end within a target; what is given of a response is its text, or a
//! front of it where giving failed.
#![tactic(auto)]

mod answer;
mod head;
mod response;

pub use answer::{Answer, Spot, write_answer};
pub use head::{HEAD_LIMIT, Head, HeadRead, LINE_LIMIT, Place, read_head, read_more};
pub use response::{Response, write_response};
