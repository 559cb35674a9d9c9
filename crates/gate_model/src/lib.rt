//! What a store of messages holds, what happens to it, and what it is to those that hand messages in.
//!
//! A `Gate` keeps messages that wait, messages of which a report is awaited, URLs that are to be called, messages from centres, which
//! links are up, who has taken what, and counts. `check` says whether an entry is refused; `prepare` takes the memory that it needs, as a
//! `Ready`, and `apply` does it; `pass` does what isn't recorded; and `next_for`, `next_job` and `next_arrival` say what comes next. A
//! `Loader` reads a gate from what a store kept.
//!
//! An `Acceptor` takes the parts of a message, and answers a `Reply` or a `Refusal`. `Totals` is what it counts.
//!
//! The contracts: a gate holds a state (`specs/State.antt`), and an entry makes of it what its definition says (`specs/Fold.antt`). The
//! reports that are awaited and the URLs that are called follow from the entries alone (`specs/Due.antt`).
//! What was handed in and what was answered, in order, leads a store from what it was to what it is.
#![tactic(auto)]

mod acceptor;
mod arrival;
mod counts;
mod gate;
mod job;
mod load_fault;
mod loader;
mod ready;
mod reply;
mod totals;
mod waiting;

pub use acceptor::Acceptor;
pub use arrival::Arrival;
pub use gate::Gate;
pub use job::Job;
pub use load_fault::LoadFault;
pub use loader::Loader;
pub use ready::Ready;
pub use reply::{Refusal, Reply};
pub use totals::Totals;
pub use waiting::Waiting;
