//! A disk in memory, call by call: what each answers, and what a stop in it leaves.

use kn_base::{Memory, Octets, write_hex};
use line_cases::{
    Acts, both, cut_at, cut_item, number, numbers_of, octets_of, put_acts, put_named,
};
use std::alloc::Global;
use store_disk::{Area, Disk, DiskFailed, MemDisk};

/// What is chosen for what a stop leaves in doubt.
pub static CHOICES: [u8; 3] = [0, 1, 0xFF];

/// Calls of a disk, each a word: `write:AREA:AT:OCTETS`, `cut:AREA:SIZE`, `sync:AREA`, `size:AREA` and `read:AREA:AT`, which reads two octets.
#[derive(Drop)]
struct DiskActs {
    disk: MemDisk,
}

/// `A`, `B`, and else the area that picks.
fn area_of(name: &[u8]) -> Area {
    match name {
        b"A" => Area::A,
        b"B" => Area::B,
        _ => Area::Pick,
    }
}

/// What a call came to that answers nothing.
fn answer(done: Result<(), DiskFailed>) -> &'static [u8] {
    match done {
        Ok(()) => b"done",
        Err(DiskFailed) => b"failed",
    }
}

fn write(disk: &mut MemDisk, area: Area, at: u64, octets: &[u8]) -> &'static [u8] {
    if octets.is_empty() || at > disk.area(area).len() as u64 {
        return b"outside";
    }
    answer(disk.write_at(area, at, octets))
}

fn cut(disk: &mut MemDisk, area: Area, size: u64) -> &'static [u8] {
    if size > disk.area(area).len() as u64 {
        return b"outside";
    }
    answer(disk.cut(area, size))
}

/// Puts the size of an area last.
fn put_size(disk: &mut MemDisk, area: Area, report: &mut Octets) -> Result<(), Memory> {
    match disk.size(area) {
        Ok(size) => put_named(report, b"", size),
        Err(DiskFailed) => report.extend_from_slice(b"failed"),
    }
}

/// Puts two octets of an area last.
fn put_read(disk: &mut MemDisk, area: Area, at: u64, report: &mut Octets) -> Result<(), Memory> {
    let size = disk.area(area).len() as u64;
    if at > size || size - at < 2 {
        return report.extend_from_slice(b"outside");
    }
    let mut octets = [0; 2];
    match disk.read(area, at, &mut octets) {
        Ok(()) => write_hex(report, &octets),
        Err(DiskFailed) => report.extend_from_slice(b"failed"),
    }
}

impl Acts for DiskActs {
    fn act(&mut self, alloc: Global, word: &[u8], report: &mut Octets) -> Result<(), Memory> {
        let (kind, rest) = cut_at(word, b':');
        let (name, rest) = cut_at(rest, b':');
        let area = area_of(name);
        match kind {
            b"write" => {
                let (at, octets) = cut_at(rest, b':');
                let octets = octets_of(alloc, octets)?;
                let done = write(&mut self.disk, area, number(at), octets.as_slice());
                report.extend_from_slice(done)
            }
            b"cut" => report.extend_from_slice(cut(&mut self.disk, area, number(rest))),
            b"sync" => report.extend_from_slice(answer(self.disk.sync(area))),
            b"size" => put_size(&mut self.disk, area, report),
            _ => put_read(&mut self.disk, area, number(rest), report),
        }
    }
}

/// Puts last what the areas hold, by hex digits.
fn put_held(report: &mut Octets, disk: &MemDisk) -> Result<(), Memory> {
    for area in [Area::A, Area::B, Area::Pick] {
        report.extend_from_slice(b" | ")?;
        write_hex(report, disk.area(area))?;
    }
    report.push(b'\n')
}

/// The disk whose areas and failing calls a text begins with, and what stands behind them.
pub fn failing_disk_of(alloc: Global, text: &[u8]) -> Result<(MemDisk, &[u8]), Memory> {
    let (a, text) = cut_item(text);
    let (b, text) = cut_item(text);
    let (pick, text) = cut_item(text);
    let (failing, text) = cut_item(text);
    let areas = both(octets_of(alloc, a), octets_of(alloc, b));
    let others = both(octets_of(alloc, pick), numbers_of(alloc, failing));
    let ((a, b), (pick, failing)) = both(areas, others)?;
    Ok((MemDisk::new(alloc, a, b, pick, failing), text))
}

/// `stops A | B | PICK | FAILING .. | CALLS ..`: what calls of a disk with these areas answer, what it holds and has counted then, and
/// what a stop in each call leaves by each choice, and one in a call that wasn't made.
pub fn put_stops(alloc: Global, text: &[u8], report: &mut Octets) -> Result<(), Memory> {
    let (disk, calls) = failing_disk_of(alloc, text)?;
    let mut on = DiskActs { disk };
    report.extend_from_slice(b"    ")?;
    put_acts(alloc, &mut on, calls, report)?;
    put_named(report, b"calls ", on.disk.calls())?;
    put_named(report, b", faults ", on.disk.faults())?;
    put_held(report, &on.disk)?;
    put_each_stop(alloc, &on.disk, report)
}

/// The line of each stop.
fn put_each_stop(alloc: Global, disk: &MemDisk, report: &mut Octets) -> Result<(), Memory> {
    for call in 0..disk.calls() {
        put_stop(alloc, disk, call, report)?;
    }
    put_stop(alloc, disk, disk.calls(), report)
}

/// The lines of the stops in one call.
fn put_stop(alloc: Global, disk: &MemDisk, call: u64, report: &mut Octets) -> Result<(), Memory> {
    for choice in &CHOICES {
        put_named(report, b"    ", call)?;
        put_named(report, b" by ", u64::from(*choice))?;
        let stopped = disk.stopped(alloc, call, *choice)?;
        put_held(report, &stopped)?;
    }
    Ok(())
}
