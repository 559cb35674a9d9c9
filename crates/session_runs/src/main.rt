//! Cases of a link's session as a command, over a house in memory: `door` takes some messages, `link` holds a session with a centre, and `show` prints
//! what the store counts then. A line is a case, of items between `|`; `case.rt` has them all.
#![tactic(auto)]

mod case;
mod ends;
mod failing;
mod house;
mod peers;
mod run;
mod stops;

use case::read_case;
use kn_base::{Memory, Octets};
use line_cases::{Cases, run_lines};
use run::run_case;
use std::alloc::Global;
use std::process::ExitCode;

/// The cases of sessions.
struct SessionCases;

impl Cases for SessionCases {
    fn report(&self, alloc: Global, line: &[u8], report: &mut Octets) -> Result<(), Memory> {
        run_case(alloc, read_case(line), report)
    }
}

fn main(rt: HostRuntime) -> ExitCode {
    run_lines(rt, rt.alloc(), &SessionCases)
}
