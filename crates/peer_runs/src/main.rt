//! Who makes connections, and a centre that follows a script. Cases are lines of standard input, and what each came to is a line of
//! standard output. Behind each function that takes a case stands what its line holds.
#![tactic(auto)]

mod centre;
mod dialers;
mod ends;
mod loopback;
mod machine;
mod network;
mod script;

use kn_base::{Memory, Octets};
use line_cases::{Cases, cut_at, run_lines};
use std::alloc::Global;
use std::net::Net;
use std::process::ExitCode;

/// The cases of peers, some of which need the machine's network.
#[derive(Drop)]
struct PeerCases<R: Net + Copy> {
    rt: R,
}

impl<R: Net + Copy> Cases for PeerCases<R> {
    fn report(&self, alloc: Global, line: &[u8], report: &mut Octets) -> Result<(), Memory> {
        let (kind, text) = cut_at(line, b' ');
        report.extend_from_slice(b"    ")?;
        if kind == b"dialer".as_slice() {
            dialers::put_dialer(alloc, text, report)?;
        } else if kind == b"loopback".as_slice() {
            loopback::put_loopback(self.rt, text, report)?;
        } else if kind == b"network".as_slice() {
            machine::put_network(alloc, text, report)?;
        } else if kind == b"heard".as_slice() {
            centre::put_heard(alloc, text, report)?;
        } else {
            centre::put_talk(alloc, text, report)?;
        }
        report.push(b'\n')
    }
}

fn main(rt: HostRuntime) -> ExitCode {
    run_lines(rt, rt.alloc(), &PeerCases { rt })
}
