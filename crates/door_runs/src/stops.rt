//! Cases in which the disk of a run is stopped in each of its calls, and then `show` opens what is left of it.

use crate::case::Case;
use crate::house::{NONE_FAILS, disk_of};
use crate::outcome::Outcome;
use crate::run::{put_run, run, showing};
use kn_base::{Memory, Octets};
use line_cases::{cut_at, put_named};
use std::alloc::Global;
use store_disk::MemDisk;

/// More calls than any run makes.
const MOST_CALLS: u64 = 1_000;

/// What is chosen for what is in doubt: what stood there, what was written there, and an octet.
const CHOICES: &[u8] = &[0, 1, 0xFF];

/// How many messages are accepted, of what `show` prints.
fn accepted_in(out: &[u8]) -> &[u8] {
    let (row, _) = cut_at(out, b'\n');
    let (_, count) = cut_at(row, b' ');
    count
}

/// Puts how many messages `show` counts as accepted, or its status where that isn't 0.
fn put_count(into: &mut Octets, outcome: &Outcome) -> Result<(), Memory> {
    into.push(b' ')?;
    if outcome.status != 0 {
        return put_named(into, b"status ", u64::from(outcome.status));
    }
    into.extend_from_slice(accepted_in(outcome.out.as_slice()))
}

/// Puts what `show` counts over what a stop leaves of a disk.
fn put_stopped(
    alloc: Global,
    case: Case,
    disk: &MemDisk,
    call: u64,
    choice: u8,
    into: &mut Octets,
) -> Result<(), Memory> {
    let stopped = disk.stopped(alloc, call, choice)?;
    let mut outcome = Outcome::new(alloc);
    run(alloc, showing(case), NONE_FAILS, stopped, &mut outcome)?;
    put_count(into, &outcome)
}

/// Puts the line of one call: what `show` counts by each choice.
fn put_call(
    alloc: Global,
    case: Case,
    disk: &MemDisk,
    call: u64,
    report: &mut Octets,
) -> Result<(), Memory> {
    put_named(report, b"    call ", call)?;
    report.extend_from_slice(b" shows")?;
    for choice in CHOICES {
        put_stopped(alloc, case, disk, call, *choice, report)?;
    }
    report.push(b'\n')
}

/// Puts a line for each call of a disk, and one for the disk as it reads.
fn put_calls(alloc: Global, case: Case, disk: &MemDisk, report: &mut Octets) -> Result<(), Memory> {
    for call in 0..MOST_CALLS {
        put_call(alloc, case, disk, call, report)?;
        if call >= disk.calls() {
            break;
        }
    }
    Ok(())
}

/// Runs a case, reports it, and puts what `show` counts where the disk was stopped in each of its calls in turn.
pub fn run_each_stop(alloc: Global, case: Case, report: &mut Octets) -> Result<(), Memory> {
    let mut outcome = Outcome::new(alloc);
    let disk = disk_of(alloc, case, None)?;
    let left = run(alloc, case, NONE_FAILS, disk, &mut outcome)?;
    put_run(report, &outcome)?;
    match left {
        Some(disk) => put_calls(alloc, case, &disk, report),
        None => Ok(()),
    }
}
