//! Cases in which each call of the disk of `link`, or of its peer, fails in turn, until a run has none to fail.

use crate::case::Case;
use crate::peers::numbers_of;
use crate::run::{Left, filled, put_shown, run_link};
use crate::stops::as_it_reads;
use kn_base::{Memory, Octets};
use line_cases::{both, put_new};
use std::alloc::Global;
use store_disk::{Area, MemDisk};

/// More calls than any run makes.
const MOST_CALLS: u64 = 1_000;

/// Whose call fails.
#[derive(Clone, Copy)]
pub enum Fails {
    Disk,
    Peer,
}

/// What an area of a disk holds.
fn copied(alloc: Global, disk: &MemDisk, area: Area) -> Result<Octets, Memory> {
    Octets::from_slice(alloc, disk.area(area))
}

/// A disk with what another holds, one call of which fails.
fn failing_disk(alloc: Global, disk: &MemDisk, call: u64) -> Result<MemDisk, Memory> {
    let (a, b) = both(copied(alloc, disk, Area::A), copied(alloc, disk, Area::B))?;
    let (pick, failing) = both(
        copied(alloc, disk, Area::Pick),
        numbers_of(alloc, Some(call)),
    )?;
    Ok(MemDisk::new(alloc, a, b, pick, failing))
}

/// Runs `link` where a call fails.
fn run_failing(
    alloc: Global,
    case: Case,
    fails: Fails,
    call: u64,
    report: &mut Octets,
) -> Result<Left<MemDisk>, Memory> {
    let disk = filled(alloc, case)?;
    match fails {
        Fails::Disk => run_link(alloc, case, None, failing_disk(alloc, &disk, call)?, report),
        Fails::Peer => run_link(alloc, case, Some(call), disk, report),
    }
}

/// Puts what the store on a disk counts last, without further faults of the disk. Whether it had one before.
fn put_left(
    alloc: Global,
    case: Case,
    disk: &MemDisk,
    report: &mut Octets,
) -> Result<bool, Memory> {
    put_shown(alloc, case, as_it_reads(alloc, disk)?, report)?;
    Ok(disk.faults() > 0)
}

/// The lines of a run in which a call fails, and whether one did.
fn lines_of(alloc: Global, case: Case, fails: Fails, call: u64) -> Result<(Octets, bool), Memory> {
    let mut lines = Octets::new(alloc);
    let left = run_failing(alloc, case, fails, call, &mut lines)?;
    let disk_failed = match &left.disk {
        Some(disk) => put_left(alloc, case, disk, &mut lines)?,
        None => false,
    };
    Ok((lines, disk_failed || left.peer_failed))
}

/// Runs a case once for each call, which fails. Lines that are the same one after the other stand once.
pub fn run_each_call(
    alloc: Global,
    case: Case,
    fails: Fails,
    report: &mut Octets,
) -> Result<(), Memory> {
    let mut last = Octets::new(alloc);
    for call in 0..MOST_CALLS {
        let (lines, has_failed) = lines_of(alloc, case, fails, call)?;
        put_new(report, &mut last, lines)?;
        if !has_failed {
            break;
        }
    }
    Ok(())
}
