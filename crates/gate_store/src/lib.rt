//! The store that keeps messages.
//!
//! `Store` keeps what happened to messages as entries of a journal, and what they make in a gate. It is what `serve_http` hands messages to
//! (`Acceptor`), and what a link takes them from (`Taken`).
//!
//! The one contract: a stop at any moment leaves a store that reopens to the state after the entries that were recorded, or that with the one
//! in flight, or the one that a disk fault left unsure; each call says what becomes of the state, and when it is refused.
#![tactic(auto)]

mod store;
mod store_fault;
mod taken;

pub use store::Store;
pub use store_fault::StoreFault;
pub use taken::Taken;
