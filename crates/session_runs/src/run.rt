//! Running a case: `door`, where it asks for messages, then `link`, then `show`.

ghost use Rattle.kn_base.specs.Course.{IsFresh};

use crate::case::{Case, Runs};
use crate::ends::{put_told, put_worker};
use crate::failing::{Fails, run_each_call};
use crate::house::{house_of, new_disk, sink, visitor_of};
use crate::peers::{centre_peer, heard_peer};
use crate::stops::run_each_stop;
use boxes_main::{House, MemHouse, door, link_once, show};
use kn_base::{Memory, Octets};
use line_cases::{put_named, words_of};
use peer_dialer::Counted;
use std::alloc::Global;
use store_disk::MemDisk;

/// The words of the program.
fn octet_words(alloc: Global, text: &[u8]) -> Result<Vec<Octets>, Memory> {
    let mut words = Vec::new(alloc);
    for word in words_of(alloc, text)?.iter() {
        words.push(Octets::from_slice(alloc, word)?)?;
    }
    Ok(words)
}

/// Runs `door`, and gives its disk.
fn disk_of_door<H: House>(alloc: Global, words: &[Octets], house: &mut H) -> Option<H::D> {
    door(alloc, words, house).disk
}

/// Runs `show`, and gives its disk.
fn disk_of_show<H: House>(alloc: Global, words: &[Octets], house: &mut H) -> Option<H::D> {
    show(alloc, words, house).disk
}

/// What `link` left: its disk, where one was made, and whether a call of its peer failed.
#[derive(Drop)]
pub struct Left<D: Drop> {
    pub disk: Option<D>,
    pub peer_failed: bool,
}

/// Runs `link`, puts its status last and how its session ended, and gives what it left.
fn left_by_link<H: House>(
    alloc: Global,
    words: &[Octets],
    house: &mut H,
    report: &mut Octets,
) -> Result<Left<H::D>, Memory> {
    let ended = link_once(alloc, words, house);
    put_named(report, b"    ", u64::from(ended.status))?;
    let mut peer_failed = false;
    for worker in ended.workers.as_slice() {
        peer_failed = put_worker(report, worker)?;
    }
    Ok(Left {
        disk: ended.disk,
        peer_failed,
    })
}

/// Puts what a house's standard output and standard error took last.
fn put_sinks<P: Counted + Drop>(
    alloc: Global,
    report: &mut Octets,
    house: MemHouse<P>,
) -> Result<(), Memory> {
    let (_, output, errors) = house.into_peers();
    put_told(alloc, report, b" | told ", errors)?;
    put_told(alloc, report, b"    ", output)
}

/// The disk behind `door`, which takes the messages that a case asks for, as one on which no call was made.
pub fn filled(alloc: Global, case: Case) -> Result<MemDisk, Memory> {
    let words = octet_words(alloc, b"door gate.conf")?;
    let visitor = visitor_of(alloc, case)?;
    let mut house = house_of(alloc, case, visitor, sink(alloc), new_disk(alloc))?;
    match disk_of_door(alloc, &words, &mut house) {
        Some(disk) => Ok(disk.anew()),
        None => Ok(new_disk(alloc)),
    }
}

/// Runs `link` with a peer over a disk.
fn run_with<P: Counted + Drop>(
    alloc: Global,
    case: Case,
    peer: P,
    disk: MemDisk,
    report: &mut Octets,
) -> Result<Left<MemDisk>, Memory>
    requires { IsFresh (P.course peer) }
{
    let words = octet_words(alloc, case.words)?;
    let mut house = house_of(alloc, case, sink(alloc), peer, disk)?;
    let left = left_by_link(alloc, &words, &mut house, report)?;
    put_sinks(alloc, report, house)?;
    Ok(left)
}

/// Runs `link` over a disk, and puts what came of it last, as a line. Where octets come in the place of a centre, one call of theirs may fail.
pub fn run_link(
    alloc: Global,
    case: Case,
    failing: Option<u64>,
    disk: MemDisk,
    report: &mut Octets,
) -> Result<Left<MemDisk>, Memory> {
    let left = match case.hears {
        Some(text) => {
            let peer = heard_peer(alloc, text, case.quiets, failing)?;
            run_with(alloc, case, peer, disk, report)?
        }
        None => run_with(alloc, case, centre_peer(alloc, case)?, disk, report)?,
    };
    report.push(b'\n')?;
    Ok(left)
}

/// Puts what the store on a disk counts last.
pub fn put_shown(
    alloc: Global,
    case: Case,
    disk: MemDisk,
    report: &mut Octets,
) -> Result<(), Memory> {
    let words = octet_words(alloc, b"show gate.conf")?;
    let mut house = house_of(alloc, case, sink(alloc), sink(alloc), disk)?;
    disk_of_show(alloc, &words, &mut house);
    put_sinks(alloc, report, house)
}

/// Runs a case once and reports what it came to.
fn run_once(alloc: Global, case: Case, report: &mut Octets) -> Result<(), Memory> {
    let left = run_link(alloc, case, None, filled(alloc, case)?, report)?;
    if let Some(disk) = left.disk {
        put_shown(alloc, case, disk, report)?;
        report.push(b'\n')?;
    }
    Ok(())
}

/// Runs a case and reports what it came to.
pub fn run_case(alloc: Global, case: Case, report: &mut Octets) -> Result<(), Memory> {
    match case.runs {
        Runs::Once => run_once(alloc, case, report),
        Runs::EachDiskCall => run_each_call(alloc, case, Fails::Disk, report),
        Runs::EachPeerCall => run_each_call(alloc, case, Fails::Peer, report),
        Runs::EachStop => run_each_stop(alloc, case, report),
    }
}
