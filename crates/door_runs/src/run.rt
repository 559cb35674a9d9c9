//! Running a case: the runs that it stands for.

use crate::case::{Case, Runs};
use crate::failing::{run_each_disk_call, run_each_output_call, run_each_visitor_call};
use crate::house::{Failing, NONE_FAILS, disk_of, house_of};
use crate::outcome::{Outcome, put_disk, put_outcome, put_said};
use crate::stops::run_each_stop;
use boxes_main::{House, MemHouse, door, show};
use kn_base::{MemPeer, Memory, Octets, Peer};
use line_cases::{cut_at, words_of};
use std::alloc::Global;
use store_disk::MemDisk;

/// The words of the program.
fn octet_words(alloc: Global, text: &[u8]) -> Result<Vec<Octets>, Memory> {
    let mut words = Vec::new(alloc);
    for word in words_of(alloc, text)?.iter() {
        words.push(Octets::from_slice(alloc, word)?)?;
    }
    Ok(words)
}

/// Runs `door`, and gives its status and its disk. It knows no house, and so nothing of what else is left.
fn end_of_door<H: House>(alloc: Global, words: &[Octets], house: &mut H) -> (u8, Option<H::D>) {
    let ended = door(alloc, words, house);
    (ended.status, ended.disk)
}

/// Runs `show`, and gives its status and its disk.
fn end_of_show<H: House>(alloc: Global, words: &[Octets], house: &mut H) -> (u8, Option<H::D>) {
    let ended = show(alloc, words, house);
    (ended.status, ended.disk)
}

/// Puts what was said to standard output and to the sink for errors into the outcome.
fn put_sinks<O: Peer + Drop, E: Peer + Drop>(
    outcome: &mut Outcome,
    output: O,
    errors: E,
) -> Result<(), Memory> {
    outcome.output_failed = put_said(&mut outcome.out, output)?;
    put_said(&mut outcome.told, errors)?;
    Ok(())
}

/// Puts what became of a house into the outcome.
fn put_house(outcome: &mut Outcome, house: MemHouse<MemPeer>) -> Result<(), Memory> {
    let (visitor, output, errors) = house.into_peers();
    put_sinks(outcome, output, errors)?;
    outcome.visitor_failed = put_said(&mut outcome.said, visitor)?;
    Ok(())
}

/// Runs the command over a house: `show` where that is its word, else `door`.
fn run_in(
    alloc: Global,
    case: Case,
    house: MemHouse<MemPeer>,
    outcome: &mut Outcome,
) -> Result<Option<MemDisk>, Memory> {
    let mut house = house;
    let words = octet_words(alloc, case.words)?;
    let (command, _) = cut_at(case.words, b' ');
    let (status, disk) = if command == b"show".as_slice() {
        end_of_show(alloc, &words, &mut house)
    } else {
        end_of_door(alloc, &words, &mut house)
    };
    outcome.status = status;
    put_house(outcome, house)?;
    Ok(disk)
}

/// Puts what became of a disk into the outcome.
fn put_left(outcome: &mut Outcome, disk: &Option<MemDisk>, shown: bool) -> Result<(), Memory> {
    match disk {
        Some(disk) => {
            outcome.disk_failed = disk.faults() > 0;
            put_disk(&mut outcome.areas, disk, shown)
        }
        None => outcome.areas.extend_from_slice(b" | no disk"),
    }
}

/// Runs the command over a disk, and gives what is left of it.
pub fn run(
    alloc: Global,
    case: Case,
    failing: Failing,
    disk: MemDisk,
    outcome: &mut Outcome,
) -> Result<Option<MemDisk>, Memory> {
    let house = house_of(alloc, case, failing, disk)?;
    let left = run_in(alloc, case, house, outcome)?;
    put_left(outcome, &left, case.shown)?;
    Ok(left)
}

/// Runs the command. Calls of the visitor, of standard output and of the disk may fail.
pub fn run_once(
    alloc: Global,
    case: Case,
    failing: Failing,
    of_disk: Option<u64>,
) -> Result<Outcome, Memory> {
    let mut outcome = Outcome::new(alloc);
    let disk = disk_of(alloc, case, of_disk)?;
    run(alloc, case, failing, disk, &mut outcome)?;
    Ok(outcome)
}

/// Reports what a run came to.
pub fn put_run(report: &mut Octets, outcome: &Outcome) -> Result<(), Memory> {
    put_outcome(report, outcome)?;
    report.extend_from_slice(outcome.areas.as_slice())?;
    report.push(b'\n')
}

/// Runs a case and reports what it came to.
pub fn run_case(alloc: Global, case: Case, report: &mut Octets) -> Result<(), Memory> {
    match case.runs {
        Runs::Plain => run_all(alloc, case, report),
        Runs::EachVisitorCall => run_each_visitor_call(alloc, case, report),
        Runs::EachOutputCall => run_each_output_call(alloc, case, report),
        Runs::EachDiskCall => run_each_disk_call(alloc, case, report),
        Runs::EachStop => run_each_stop(alloc, case, report),
    }
}

/// Runs a case over a disk, reports it, and gives the disk back.
fn run_over(
    alloc: Global,
    case: Case,
    disk: MemDisk,
    report: &mut Octets,
) -> Result<Option<MemDisk>, Memory> {
    let mut outcome = Outcome::new(alloc);
    let left = run(alloc, case, NONE_FAILS, disk, &mut outcome)?;
    put_run(report, &outcome)?;
    Ok(left)
}

/// Runs a case as often as it says, each time over the disk that was left.
fn run_times(
    alloc: Global,
    case: Case,
    disk: MemDisk,
    report: &mut Octets,
) -> Result<Option<MemDisk>, Memory> {
    let mut disk = disk;
    for _ in 0..case.times {
        match run_over(alloc, case, disk, report)? {
            Some(left) => disk = left,
            None => return Ok(None),
        }
    }
    Ok(Some(disk))
}

/// The case with `show` in the place of its command.
pub fn showing(case: Case) -> Case {
    let mut case = case;
    case.words = b"show gate.conf";
    case
}

/// Runs a case as often as it says, and then `show`, where it says that.
fn run_all(alloc: Global, case: Case, report: &mut Octets) -> Result<(), Memory> {
    let disk = disk_of(alloc, case, None)?;
    let left = run_times(alloc, case, disk, report)?;
    match left {
        Some(disk) if case.then_show => {
            run_over(alloc, showing(case), disk, report)?;
            Ok(())
        }
        _ => Ok(()),
    }
}
