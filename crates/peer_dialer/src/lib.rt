//! Connections that are made from this side.
//!
//! `Dialer` dials a host and a port, and takes the peer that it gave back when the connection is over. `MemDialer` hands out peers that
//! stand beforehand, and tells what was asked of it and what became of each; `HostDialer` makes TCP connections (`HostStream`), and tells
//! nothing but counts.
//!
//! The one contract: a peer that is given has made no call, a dial fails only where the count of faults rose, and of each peer that is
//! handed back the dialer gives what was counted, and its talk where that is told (`Closed`).
#![tactic(auto)]

mod asked;
mod closed;
mod copying;
mod dialer;
mod host_dialer;
mod host_stream;
mod mem_dialer;
mod told;

pub use asked::Asked;
pub use closed::{Closed, Counted};
pub use dialer::{Dialed, Dialer};
pub use host_dialer::HostDialer;
pub use host_stream::HostStream;
pub use mem_dialer::MemDialer;
