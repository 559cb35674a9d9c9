//! The commands of the gateway, over a house that hands out the outside.
//!
//! `House` is all that a command takes of the outside; `MemHouse` is one in memory, for tests, and `HostHouse` is the
//! machine. Each command reads its configuration and opens the store that it names (`opening`): `door` serves one connection over
//! HTTP on standard input and output over it, and `show` prints what it counts. Each returns `Ended`: the status, what went wrong,
//! the disk and what the workers left.
//!
//! The one contract: what `door` says answers what it heard, and whatever a stop leaves of the disk that it hands back stands for what it
//! found there and, exactly where it said 202, for the new messages behind it; one request in which the disk failed may stand too.
#![tactic(auto)]

mod command;
mod command_end;
mod failure;
mod giving;
mod host_house;
mod house;
mod line;
mod link_fault;
mod link_session;
mod mem_house;
mod opening;
mod opening_fault;
mod printing;
mod session;
mod session_fault;

pub use command::door::door;
pub use command::link::link_once;
pub use command::show::show;
pub use command::{Command, USAGE, read_command};
pub use command_end::{Ended, Role, SessionEnd, WorkerEnd};
pub use config_groups::ConfigFault;
pub use failure::{Failure, Fault, status, tell};
pub use host_house::HostHouse;
pub use house::House;
pub use line::Line;
pub use link_fault::{ChoiceFault, EndFault, LinkFault};
pub use mem_house::MemHouse;
pub use opening_fault::OpeningFault;
pub use printing::OutputFault;
pub use session_fault::SessionFault;
