//! Disks of real files.

use crate::journal::put_acts;
use kn_base::{Memory, Octets};
use line_cases::{cut_item, octets_of, put_named, put_text};
use std::alloc::Global;
use std::fs::{File, Files};
use store_disk::{Area, Disk, DiskFailed, HostDisk};

/// Where disks come from.
pub trait Disks {
    /// A disk.
    type Made: Disk + Drop;

    /// The disk of a name.
    fn disk(&self, alloc: Global, name: &[u8]) -> Result<Self::Made, Memory>;
}

/// The machine's disks.
#[derive(Drop)]
pub struct HostDisks<R: Files<File = File> + Copy + Drop> {
    pub rt: R,
}

impl<R: Files<File = File> + Copy + Drop> Disks for HostDisks<R> {
    type Made = HostDisk<R>;

    fn disk(&self, alloc: Global, name: &[u8]) -> Result<HostDisk<R>, Memory> {
        HostDisk::new(alloc, self.rt, name)
    }
}

/// Acts on the disk of a name.
fn put_disk<M: Disks>(
    made: &M,
    alloc: Global,
    name: &[u8],
    acts: &[u8],
    report: &mut Octets,
) -> Result<(), Memory> {
    let disk = made.disk(alloc, name)?;
    let _disk = put_acts(alloc, disk, acts, report)?;
    Ok(())
}

/// Appends to one disk while another of the same name is there, then to that one, to the first once more, and to a third once they
/// are gone.
fn put_held<M: Disks>(
    made: &M,
    alloc: Global,
    name: &[u8],
    payload: &[u8],
    report: &mut Octets,
) -> Result<(), Memory> {
    let first = made.disk(alloc, name)?;
    let first = put_acts(alloc, first, payload, report)?;
    put_disk(made, alloc, name, payload, report)?;
    let first = put_acts(alloc, first, payload, report)?;
    drop(first);
    put_disk(made, alloc, name, payload, report)
}

/// Writes to an area, where that is no further than its end.
fn write_within<D: Disk>(
    disk: &mut D,
    area: Area,
    at: u64,
    octets: &[u8],
) -> Result<(), DiskFailed> {
    if !octets.is_empty() && at <= disk.size(area)? {
        disk.write_at(area, at, octets)?;
    }
    Ok(())
}

/// Cuts an area, where it is longer.
fn cut_within<D: Disk>(disk: &mut D, area: Area, size: u64) -> Result<(), DiskFailed> {
    if size <= disk.size(area)? {
        disk.cut(area, size)?;
    }
    Ok(())
}

/// Reads four octets behind the first of an area, where it has them.
fn read_within<D: Disk>(disk: &mut D, area: Area, octets: &mut [u8; 4]) -> Result<(), DiskFailed> {
    if 5 <= disk.size(area)? {
        disk.read(area, 1, octets)?;
    }
    Ok(())
}

/// Writes to an area in two places, reads behind its first octet, and cuts it and syncs it; puts the sizes of two areas last.
pub fn write_and_read<D: Disk>(
    disk: &mut D,
    octets: &mut [u8; 4],
) -> Result<(u64, u64), DiskFailed> {
    write_within(disk, Area::B, 0, b"abcdef")?;
    write_within(disk, Area::B, 2, b"XY")?;
    read_within(disk, Area::B, octets)?;
    cut_within(disk, Area::B, 3)?;
    disk.sync(Area::B)?;
    Ok((disk.size(Area::A)?, disk.size(Area::B)?))
}

/// What was written over the disk of a name, and is read there.
fn put_plain<M: Disks>(
    made: &M,
    alloc: Global,
    name: &[u8],
    report: &mut Octets,
) -> Result<(), Memory> {
    let mut disk = made.disk(alloc, name)?;
    let mut octets = [0; 4];
    match write_and_read(&mut disk, &mut octets) {
        Ok((a, b)) => {
            put_text(report, &octets)?;
            put_named(report, b" | A ", a)?;
            put_named(report, b" | B ", b)
        }
        Err(DiskFailed) => report.extend_from_slice(b"disk"),
    }
}

/// `disk NAME | ACTS ..`, `held NAME | PAYLOAD`, `plain NAME`.
pub fn put_disk_case<M: Disks>(
    made: &M,
    alloc: Global,
    kind: &[u8],
    text: &[u8],
    report: &mut Octets,
) -> Result<(), Memory> {
    let (name, acts) = cut_item(text);
    let name = octets_of(alloc, name)?;
    put_named_disk(made, alloc, kind, (name.as_slice(), acts), report)
}

/// What becomes of the disk of a name.
fn put_named_disk<M: Disks>(
    made: &M,
    alloc: Global,
    kind: &[u8],
    (name, acts): (&[u8], &[u8]),
    report: &mut Octets,
) -> Result<(), Memory> {
    if kind == b"disk".as_slice() {
        put_disk(made, alloc, name, acts, report)
    } else if kind == b"held".as_slice() {
        put_held(made, alloc, name, acts, report)
    } else {
        put_plain(made, alloc, name, report)
    }
}
