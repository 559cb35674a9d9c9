//! A gate, act by act. A line of standard input holds `LINKS OUTGOING INCOMING`, with how many links there are, of which the first is
//! up, unless a `1` stands behind, and how many messages and arrivals may be held, and then acts between bars. What they come to is
//! a line of standard output.
//!
//! `accept TIME COUNT DEFERRED VALIDITY`, and `adrift` the same to a receiver that no link takes; `acked MESSAGE TIME`, `rejected MESSAGE
//! TIME`, `expired MESSAGE TIME`, `reported TIME`, `arrived`, `answered TIME COUNT ARRIVAL ..`, `called JOB`, `dropped JOB`: entries that are recorded.
//! `asked TIME MASK` accepts a message that asks for reports, `taken MESSAGE TIME` acknowledges one under the SMSC id `main` and the foreign id
//! `A1`, and `report KIND TIME` reports under these. `reports` are the counts of reports, and `job` is the next job and its URL.
//! `next LINK NOW`, `take LINK NOW`, `back MESSAGE`, `totals`. Where `load` stands in front of the line, a loader is handed the entries.
//! Where `store` does, the acts are those of a store in memory: behind the head stand the numbers of the disk calls that fail, and `job` takes the
//! job, and `arrival` the next message from a centre.
#![tactic(auto)]

mod acts;
mod entries;
mod loads;
mod rules;
mod stores;

use acts::put_gate;
use kn_base::{Memory, Octets};
use line_cases::{Cases, cut_at, run_lines};
use loads::put_load;
use std::alloc::Global;
use std::process::ExitCode;
use stores::put_store;

/// The cases of gates.
struct GateCases;

impl Cases for GateCases {
    fn report(&self, alloc: Global, line: &[u8], report: &mut Octets) -> Result<(), Memory> {
        report.extend_from_slice(b"    ")?;
        let (kind, text) = cut_at(line, b' ');
        if kind == b"load".as_slice() {
            put_load(alloc, text, report)?;
        } else if kind == b"store".as_slice() {
            put_store(alloc, text, report)?;
        } else {
            put_gate(alloc, line, report)?;
        }
        report.push(b'\n')
    }
}

fn main(rt: HostRuntime) -> ExitCode {
    run_lines(rt, rt.alloc(), &GateCases)
}
