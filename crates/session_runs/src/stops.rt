//! Cases in which the disk of `link` is stopped in each of its calls, and then `show` opens what is left of it.

use crate::case::Case;
use crate::run::{filled, put_shown, run_link};
use kn_base::{Memory, Octets};
use line_cases::put_new;
use std::alloc::Global;
use store_disk::MemDisk;

/// What is chosen for what is in doubt: what stood there, what was written there, and an octet.
const CHOICES: &[u8] = &[0, 1, 0xFF];

/// A disk with what another reads as, no call of which fails.
pub fn as_it_reads(alloc: Global, disk: &MemDisk) -> Result<MemDisk, Memory> {
    disk.stopped(alloc, disk.calls(), 0)
}

/// Puts what `show` counts over what a stop in a call leaves of a disk, by each choice. Lines that are the same one after the other stand once.
fn put_call(
    alloc: Global,
    case: Case,
    disk: &MemDisk,
    call: u64,
    last: &mut Octets,
    report: &mut Octets,
) -> Result<(), Memory> {
    for choice in CHOICES {
        let mut line = Octets::new(alloc);
        put_shown(alloc, case, disk.stopped(alloc, call, *choice)?, &mut line)?;
        put_new(report, last, line)?;
    }
    Ok(())
}

/// Runs a case, reports it, and puts what `show` counts where the disk was stopped in each of its calls in turn, and where it wasn't.
pub fn run_each_stop(alloc: Global, case: Case, report: &mut Octets) -> Result<(), Memory> {
    let left = run_link(alloc, case, None, filled(alloc, case)?, report)?;
    let Some(disk) = left.disk else {
        return Ok(());
    };
    let mut last = Octets::new(alloc);
    for call in 0..disk.calls().saturating_add(1) {
        put_call(alloc, case, &disk, call, &mut last, report)?;
    }
    Ok(())
}
