//! Serves one connection over HTTP whose octets come in small pieces, as `bench/slow_peer.sh` has it.
//!
//! `connection_bench SHAPE HEAD TOTAL CUT`: heads of a shape, of HEAD octets each, come one behind the other, TOTAL octets in pieces of CUT.
//! It writes how the connection ended, how many octets were heard and how many were said.
#![tactic(auto)]

ghost use Rattle.std.specs.Prelude.{IfOk};
ghost use Rattle.config_groups.specs.Ranges.{AreSettings};

mod nowhere;
mod shape;
mod talker;

use config_groups::{ConfigFault, Settings, read_config};
use kn_base::{HostPeer, MemClock, MemShelf, Memory, Octets, write_all};
use line_cases::{both, number, put_named};
use nowhere::Nowhere;
use sendsms_http::{HttpEnd, serve_http};
use shape::text_of;
use std::alloc::Global;
use std::env;
use std::process::ExitCode;
use std::rt::Env;
use talker::Talker;

/// The most octets of a connection.
const BUDGET: u64 = 1_048_576;

/// A shelf with a configuration without users.
fn shelf(alloc: Global) -> Result<MemShelf, Memory> {
    let name = Octets::from_slice(alloc, b"gate.conf");
    let text = Octets::from_slice(alloc, b"group = core");
    let mut files = Vec::new(alloc);
    files.push(both(name, text)?)?;
    Ok(MemShelf::new(alloc, files, Vec::new(alloc)))
}

/// What it sets: a request of another path than that of sendsms is answered 404, and its connection is kept.
fn settings(alloc: Global) -> Result<Settings, ConfigFault>
    ensures { IfOk result AreSettings }
{
    read_config(alloc, &mut shelf(alloc)?, b"gate.conf")
}

fn put_end(report: &mut Octets, end: HttpEnd) -> Result<(), Memory> {
    match end {
        HttpEnd::End => report.extend_from_slice(b"end"),
        HttpEnd::Budget { taken } => put_named(report, b"budget ", taken),
        _ => report.extend_from_slice(b"another end"),
    }
}

/// Serves a talker, and says what it came to.
fn serve(alloc: Global, text: &[u8], cut: usize) -> Result<Octets, ConfigFault> {
    let settings = settings(alloc)?;
    let mut talker = Talker::new(text, cut);
    let mut clock = MemClock::new(alloc, Vec::new(alloc));
    let mut store = Nowhere;
    let end = serve_http(
        alloc,
        &settings,
        &mut store,
        &mut talker,
        &mut clock,
        BUDGET,
    );
    let mut report = Octets::new(alloc);
    put_end(&mut report, end)?;
    put_named(&mut report, b", heard ", talker.heard(text))?;
    put_named(&mut report, b", said ", talker.said())?;
    report.push(b'\n')?;
    Ok(report)
}

/// The shape and the numbers that the words give.
fn read_words<R: Env + AllocGlobal>(rt: &R) -> Result<(Octets, [u64; 3]), Memory> {
    let alloc: Global = rt.alloc();
    let mut shape = Octets::new(alloc);
    let mut numbers = [0; 3];
    let Ok(args) = env::args(rt) else {
        return Ok((shape, numbers));
    };
    for (at, word) in args.skip(1).enumerate() {
        match at {
            0 => shape = Octets::from_slice(alloc, word.as_bytes())?,
            1 => numbers[0] = number(word.as_bytes()),
            2 => numbers[1] = number(word.as_bytes()),
            _ => numbers[2] = number(word.as_bytes()),
        }
    }
    Ok((shape, numbers))
}

/// What the connection of the words came to.
fn report<R: Env + AllocGlobal>(rt: &R) -> Result<Octets, ConfigFault> {
    let (shape, [head, total, cut]) = read_words(rt)?;
    let text = text_of(rt.alloc(), shape.as_slice(), head, total)?;
    serve(rt.alloc(), text.as_slice(), cut.min(BUDGET) as usize)
}

fn main(rt: HostRuntime) -> ExitCode {
    match report(&rt) {
        Ok(report) => {
            let _ = write_all(&mut HostPeer::new(rt), report.as_slice());
            ExitCode::SUCCESS
        }
        Err(_) => ExitCode::FAILURE,
    }
}
