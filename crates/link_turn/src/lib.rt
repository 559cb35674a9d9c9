//! The session of one link.
//!
//! `Session` is the session by itself, without its peer and without the store: what it wishes (`Wish`), by what it is given (`Given`), over
//! any protocol (`LinkCore`). Whoever does its wishes listens, says, asks the store and reads the clock for it.
//!
//! The one contract is the talk of a link: the frames that were heard in their order, what was said, and what the store was asked to do are
//! steps, each of which may come where it stands. A message that the centre took is acknowledged by the answer that has its tag, and by no
//! other; what a session holds at its end is given back; and each end has its cause.
#![tactic(auto)]

mod end_cause;
mod given;
mod session;
mod submitted;
mod terms;
mod turned;
mod turning;
mod wish;

pub use end_cause::EndCause;
pub use given::Given;
pub use session::Session;
pub use terms::Terms;
pub use turned::Turned;
pub use turning::turn_solo;
pub use wish::Wish;
