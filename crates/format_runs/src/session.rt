//! Whole connections over HTTP, as a peer meets them that says what its case has, over a store that answers what its case has.

ghost use Rattle.config_groups.specs.Ranges.{AreSettings};

use crate::conf::{PLAIN, put_refused, settings_of};
use crate::store::Store;
use crate::talk::{put_order, put_said};
use config_groups::Settings;
use kn_base::{MemClock, MemPeer, MemTake, Memory, Octets, Peer};
use line_cases::{both, cut_at, cut_item, number, octets_of, put_named};
use sendsms_http::{HttpEnd, serve_http};
use std::alloc::Global;

/// More calls than any connection of a case makes.
const MOST_CALLS: u64 = 1_000;

/// Which connections a case stands for.
#[derive(Clone, Copy)]
enum Runs {
    Once,
    /// One for each place at which what the peer says is cut into two takes.
    EachCut,
    /// One for each call of the peer, which fails, until none does.
    EachCall,
}

/// What a case sets up.
#[derive(Clone, Copy)]
struct Case<'a> {
    /// The answers of the store.
    answers: &'a [u8],
    /// What the peer says, with escapes.
    says: &'a [u8],
    /// `then TEXT`: what it says in a take of its own behind that.
    then: &'a [u8],
    /// `quiet`: behind it, nothing comes in time.
    quiet: bool,
    /// `budget N`: the most octets that are taken.
    budget: u64,
    /// `conf TEXT`: the configuration, with escapes.
    conf: &'a [u8],
    /// `clock N,N,..`: what the clock reads, call by call; the last is read again and again.
    clock: &'a [u8],
    /// `order`: the lengths of what was heard and said are written, in their order, in place of what was said.
    ordered: bool,
    /// `each cut`, `each call fails`.
    runs: Runs,
}

/// A connection of a case, in which what the peer says is cut at a place, and a call of it fails.
#[derive(Clone, Copy)]
struct Run {
    cut: usize,
    failing: Option<u64>,
}

/// One in which nothing is cut and no call fails.
const PLAIN_RUN: Run = Run {
    cut: 0,
    failing: None,
};

fn add_item<'a>(case: &mut Case<'a>, item: &'a [u8]) {
    let (name, value) = cut_at(item, b' ');
    match name {
        b"then" => case.then = value,
        b"quiet" => case.quiet = true,
        b"budget" => case.budget = number(value),
        b"conf" => case.conf = value,
        b"clock" => case.clock = value,
        b"order" => case.ordered = true,
        b"each" if value == b"cut".as_slice() => case.runs = Runs::EachCut,
        b"each" => case.runs = Runs::EachCall,
        _ => {}
    }
}

/// The case of a text `ANSWERS TEXT | ITEM | ..`.
fn read_case(text: &[u8]) -> Case {
    let (front, behind) = cut_item(text);
    let (answers, says) = cut_at(front, b' ');
    let mut case = Case {
        answers,
        says,
        then: b"",
        quiet: false,
        budget: 1_048_576,
        conf: PLAIN,
        clock: b"1000",
        ordered: false,
        runs: Runs::Once,
    };
    let mut rest = behind;
    for _ in 0..text.len() {
        let (item, behind) = cut_item(rest);
        add_item(&mut case, item);
        rest = behind;
    }
    case
}

/// Puts a take last, unless it has no octets.
fn put_take(alloc: Global, takes: &mut Vec<MemTake>, octets: &[u8]) -> Result<(), Memory> {
    if !octets.is_empty() {
        takes.push(MemTake::Bytes(Octets::from_slice(alloc, octets)?))?;
    }
    Ok(())
}

/// What the peer says, cut at a place.
fn takes_of(alloc: Global, case: &Case, cut: usize) -> Result<Vec<MemTake>, Memory> {
    let (says, then) = both(octets_of(alloc, case.says), octets_of(alloc, case.then))?;
    let mut takes = Vec::new(alloc);
    let (front, behind) = says.as_slice().split_at(cut.min(says.len()));
    put_take(alloc, &mut takes, front)?;
    put_take(alloc, &mut takes, behind)?;
    put_take(alloc, &mut takes, then.as_slice())?;
    if case.quiet {
        takes.push(MemTake::Quiet)?;
    }
    Ok(takes)
}

/// The peer of a run.
fn peer_of(alloc: Global, case: &Case, run: Run) -> Result<MemPeer, Memory> {
    let takes = takes_of(alloc, case, run.cut)?;
    let mut failing = Vec::new(alloc);
    if let Some(call) = run.failing {
        failing.push(call)?;
    }
    Ok(MemPeer::new(alloc, takes, failing))
}

fn put_end(report: &mut Octets, end: HttpEnd) -> Result<(), Memory> {
    match end {
        HttpEnd::End => report.extend_from_slice(b"end"),
        HttpEnd::Fault => report.extend_from_slice(b"fault"),
        HttpEnd::Quiet => report.extend_from_slice(b"quiet"),
        HttpEnd::Budget { taken } => put_named(report, b"budget ", taken),
        HttpEnd::Memory => report.extend_from_slice(b"memory"),
    }
}

/// The readings of a clock, which stand between commas.
fn readings_of(alloc: Global, clock: &[u8]) -> Result<Vec<u64>, Memory> {
    let mut readings = Vec::new(alloc);
    let mut rest = clock;
    for _ in 0..clock.len() {
        if rest.is_empty() {
            break;
        }
        let (reading, behind) = cut_at(rest, b',');
        readings.push(number(reading))?;
        rest = behind;
    }
    Ok(readings)
}

/// Serves a peer with the clock of its case, and puts last how the connection ended, how often the store was handed something, and
/// at which time that was last.
fn put_served<P: Peer>(
    alloc: Global,
    settings: &Settings,
    case: &Case,
    peer: &mut P,
    report: &mut Octets,
) -> Result<(), Memory>
    requires { AreSettings settings.now }
{
    let mut store = Store::new(case.answers);
    let mut clock = MemClock::new(alloc, readings_of(alloc, case.clock)?);
    let end = serve_http(alloc, settings, &mut store, peer, &mut clock, case.budget);
    put_end(report, end)?;
    put_named(report, b", handed ", store.handed)?;
    put_named(report, b", at ", store.time)
}

/// The line of a connection, and whether a call of the peer failed in it.
fn line_of(
    alloc: Global,
    settings: &Settings,
    case: &Case,
    run: Run,
) -> Result<(Octets, bool), Memory>
    requires { AreSettings settings.now }
{
    let mut peer = peer_of(alloc, case, run)?;
    let mut line = Octets::new(alloc);
    put_served(alloc, settings, case, &mut peer, &mut line)?;
    let failed = put_talk(case, peer, &mut line)?;
    Ok((line, failed))
}

/// Puts a talk last. Whether a call of the peer failed.
fn put_talk<P: Peer>(case: &Case, peer: P, report: &mut Octets) -> Result<bool, Memory> {
    if case.ordered {
        put_order(peer, report)?;
        return Ok(false);
    }
    put_said(peer, report)
}

/// Puts the lines of a case last. Lines that are the same one after the other are one.
fn put_lines(
    alloc: Global,
    settings: &Settings,
    case: &Case,
    report: &mut Octets,
) -> Result<(), Memory>
    requires { AreSettings settings.now }
{
    match case.runs {
        Runs::Once => {
            let (line, _) = line_of(alloc, settings, case, PLAIN_RUN)?;
            report.extend_from_slice(line.as_slice())
        }
        Runs::EachCut => put_each_cut(alloc, settings, case, report),
        Runs::EachCall => put_each_call(alloc, settings, case, report),
    }
}

/// Puts a line last, unless it is the last one once more.
fn put_other(report: &mut Octets, last: &mut Octets, line: Octets) -> Result<(), Memory> {
    if line.as_slice() != last.as_slice() {
        if !last.is_empty() {
            report.extend_from_slice(b"\n    ")?;
        }
        report.extend_from_slice(line.as_slice())?;
    }
    *last = line;
    Ok(())
}

fn put_each_cut(
    alloc: Global,
    settings: &Settings,
    case: &Case,
    report: &mut Octets,
) -> Result<(), Memory>
    requires { AreSettings settings.now }
{
    let len = octets_of(alloc, case.says)?.len();
    let mut last = Octets::new(alloc);
    for cut in 0..len {
        let run = Run { cut, failing: None };
        let (line, _) = line_of(alloc, settings, case, run)?;
        put_other(report, &mut last, line)?;
    }
    Ok(())
}

fn put_each_call(
    alloc: Global,
    settings: &Settings,
    case: &Case,
    report: &mut Octets,
) -> Result<(), Memory>
    requires { AreSettings settings.now }
{
    let mut last = Octets::new(alloc);
    for call in 0..MOST_CALLS {
        let run = Run {
            cut: 0,
            failing: Some(call),
        };
        let (line, failed) = line_of(alloc, settings, case, run)?;
        put_other(report, &mut last, line)?;
        if !failed {
            break;
        }
    }
    Ok(())
}

/// `session ANSWERS TEXT | ITEM | ..`: what becomes of a connection.
pub fn put_session(alloc: Global, text: &[u8], report: &mut Octets) -> Result<(), Memory> {
    let case = read_case(text);
    match settings_of(alloc, case.conf) {
        Ok(settings) => put_lines(alloc, &settings, &case, report),
        Err(fault) => put_refused(report, &fault),
    }
}
