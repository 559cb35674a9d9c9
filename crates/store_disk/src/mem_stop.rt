//! What a stop leaves of one area of a disk in memory. It goes back over the log, from its last entry.

ghost use Rattle.std.specs.Prelude.{◌≡◌, ◌≤◌, length, map, reverse, IfOk};
ghost use Rattle.std.specs.List.{range_with_len};
ghost use Rattle.store_disk.specs.Stop.{is_among, moment_at, octet_left, octets_left, octets_through, ranges_in, settled_in};

use crate::Area;
use crate::entry::Entry;
use kn_base::{Memory, Octets};
use std::alloc::Global;

/// How many entries stand before a stop in the call of a number.
pub fn entries_up_to(log: &[Entry], call: u64) -> usize
    ensures exact { result ≡ moment_at call (reverse log.now) }
    ensures within { result ≤ length log.now }
{
    for i in 0..log.len() {
        let left = log.len() - i;
        if !log[left - 1].is_later(call) {
            return left;
        }
    }
    0
}

/// An area before all of these entries.
pub fn before_all(
    alloc: Global,
    log: &[Entry],
    area: Area,
    octets: Octets,
) -> Result<Octets, Memory>
    ensures { IfOk result (λ before. before ≡ octets_through area (reverse log.now) octets) }
{
    let mut before = octets;
    for i in 0..log.len() {
        before = log[log.len() - 1 - i].before(alloc, area, before)?;
    }
    Ok(before)
}

/// An area at its last good sync, or before all of these entries.
fn settled(alloc: Global, log: &[Entry], area: Area, octets: Octets) -> Result<Octets, Memory>
    ensures { IfOk result (λ settled. settled ≡ settled_in area (reverse log.now) octets) }
{
    let mut before = octets;
    for i in 0..log.len() {
        let entry = &log[log.len() - 1 - i];
        if entry.is_sync(area) {
            return Ok(before);
        }
        before = entry.before(alloc, area, before)?;
    }
    Ok(before)
}

/// Whether a place of an area was written since its last good sync.
fn is_written(log: &[Entry], area: Area, place: usize) -> bool
    ensures { result ≡ is_among (ranges_in area (reverse log.now)) place }
{
    for i in 0..log.len() {
        let entry = &log[log.len() - 1 - i];
        if entry.is_sync(area) {
            return false;
        }
        if entry.area == area && entry.deed.covers(place) {
            return true;
        }
    }
    false
}

/// So many octets, with the one that is given at each place that was written since the last good sync and behind what was settled.
fn doubted(
    alloc: Global,
    log: &[Entry],
    area: Area,
    settled: &[u8],
    len: usize,
    octet: u8,
) -> Result<Octets, Memory>
    ensures { IfOk result (λ left. left ≡ map (octet_left settled.now (ranges_in area (reverse log.now)) octet) (range_with_len 0 len)) }
{
    let mut left = Octets::new(alloc);
    for place in 0..len {
        left.push(octet_at(log, area, settled, place, octet))?;
    }
    Ok(left)
}

/// What a stop leaves of an area that reads as these octets behind the entries: by 0 what was settled, by 1 what it reads as, and by
/// any other octet that one at each place in doubt.
pub fn left_by(
    alloc: Global,
    log: &[Entry],
    area: Area,
    octets: Octets,
    choice: u8,
) -> Result<Octets, Memory>
    ensures { IfOk result (λ left. left ≡ octets_left (settled_in area (reverse log.now) octets) (ranges_in area (reverse log.now)) octets choice) }
{
    if choice == 1 {
        return Ok(octets);
    }
    let len = octets.len();
    let settled = settled(alloc, log, area, octets)?;
    if choice == 0 {
        return Ok(settled);
    }
    doubted(alloc, log, area, settled.as_slice(), len, choice)
}

/// The octet at one place of them.
fn octet_at(log: &[Entry], area: Area, settled: &[u8], place: usize, octet: u8) -> u8
    ensures { result ≡ octet_left settled.now (ranges_in area (reverse log.now)) octet place }
{
    if is_written(log, area, place) {
        return octet;
    }
    match settled.get(place) {
        Some(&old) => old,
        None => octet,
    }
}
