//! Whole runs of `door` and `show` over a house in memory, as their users meet them: cases are lines of standard input, and what each
//! came to is a line of standard output.
//!
//! A case changes the worked request: the words `door gate.conf`, that file, a request that is accepted, an empty disk with
//! the birth 1, and a clock that reads 1000. It is made of items between `|`; `case.rt` has them all.
#![tactic(auto)]

mod case;
mod failing;
mod house;
mod outcome;
mod run;
mod stops;

use case::read_case;
use kn_base::{Memory, Octets};
use line_cases::{Cases, run_lines};
use run::run_case;
use std::alloc::Global;
use std::process::ExitCode;

/// The cases of the commands.
struct DoorCases;

impl Cases for DoorCases {
    fn report(&self, alloc: Global, line: &[u8], report: &mut Octets) -> Result<(), Memory> {
        run_case(alloc, read_case(line), report)
    }
}

fn main(rt: HostRuntime) -> ExitCode {
    run_lines(rt, rt.alloc(), &DoorCases)
}
