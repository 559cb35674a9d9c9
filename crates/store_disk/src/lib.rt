//! The disk that the store stands on: three areas of octets.
//!
//! `Disk` is what the store asks of the outside, with the areas `A`, `B` and `Pick`. `MemDisk` holds them in memory and can be
//! told to fail, `HostDisk` holds them as the files NAME.a, NAME.b and NAME.pick.
//!
//! Its one contract: what a call does to what the areas hold and to which of them are synced, by its answer; a call fails only
//! where the disk's count of faults rose.
#![tactic(auto)]

mod area;
mod disk;
mod entry;
mod host_disk;
mod host_file;
mod mem_area;
mod mem_disk;
mod mem_stop;

pub use area::Area;
pub use disk::{Disk, DiskFailed, LAST_END};
pub use host_disk::HostDisk;
pub use host_file::Lock;
pub use mem_disk::MemDisk;
