//! What every crate of the gateway stands on.
//!
//! `Octets` and `Items` are lists that contracts see as lists, and `Memory` is want of memory. `Source`, `Sink` and
//! `Peer` are connections, `Clock` is a clock and `Shelf` holds files. Each has forms in memory (`MemPeer`, `MemClock`,
//! `MemShelf`), which tell all that they go through, and forms on the machine (`HostPeer`, `HostErrors`, `HostClock`,
//! `HostShelf`), which tell nothing but how often they failed. `write_all`, `read_decimal`, `write_decimal`, `read_hex`
//! and `write_hex` are what the others share.
//!
//! The one contract: a call of the outside does what its answer says, and a failure comes only where a count rose.
#![tactic(auto)]

mod charset;
mod clock;
mod count;
mod decimal;
mod hexadecimal;
mod host_clock;
mod host_errors;
mod host_peer;
mod host_shelf;
mod items;
mod mem_calls;
mod mem_clock;
mod mem_peer;
mod mem_shelf;
mod mem_take;
mod memory;
mod meter;
mod octets;
mod peer;
mod piece;
mod shelf;
mod sink;
mod source;
mod writing;

pub use charset::Charset;
pub use clock::{CLOCK_END, Clock};
pub use count::raised;
pub use decimal::{read_decimal, write_decimal};
pub use hexadecimal::{HexFault, read_hex, write_hex};
pub use host_clock::HostClock;
pub use host_errors::HostErrors;
pub use host_peer::HostPeer;
pub use host_shelf::HostShelf;
pub use items::Items;
pub use mem_calls::MemCalls;
pub use mem_clock::MemClock;
pub use mem_peer::MemPeer;
pub use mem_shelf::MemShelf;
pub use mem_take::MemTake;
pub use memory::Memory;
pub use meter::Meter;
pub use octets::Octets;
pub use peer::Peer;
pub use piece::{Past, Piece};
pub use shelf::{Shelf, ShelfFault};
pub use sink::{Give, Sink};
pub use source::{Source, Take};
pub use writing::{Wrote, write_all};
