//! Messages that are handed in over HTTP.
//!
//! A requester says heads (`Head` of `http_text`) one behind the other; what each asks is the parts of a message or a refusal (`asked`); the
//! parts are handed to a store (`Acceptor` of `gate_model`), whose outcome decides the answer (`answer_of`). `Visit` is one connection
//! by itself: what it wishes, by what it is given. `serve_http` does its wishes over a peer, a clock and a store.
//!
//! The one contract is that of `serve_http`: what a session hears, says, reads of the clock and hands in is an HTTP talk. Each accepted
//! message has its request, and each 202 its message; no answer but the last is ever cut short, and that one only where the peer's count of faults or of
//! want of memory rose.
#![tactic(auto)]

mod http_end;
mod reply;
mod request;
mod session;
mod target;
mod users;
mod visit;

pub use http_end::HttpEnd;
pub use reply::answer_of;
pub use request::asked;
pub use session::serve_http;
pub use visit::{Visit, VisitGiven, VisitWish};
