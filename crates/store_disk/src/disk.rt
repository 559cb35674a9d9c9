//! What the store asks of a disk: five calls on three areas, what they do and when they may fail.

ghost use Rattle.std.specs.Prelude.{◌≡◌, ◌<◌, ◌≤◌, ◌+◌, ◌↔◌, ℕ, Bool, length, IfOk, IsTrue, OnOk};
ghost use Rattle.std.specs.Bool.{OnTrue};
ghost use Rattle.store_disk.specs.Disk.{last_end, IsWithin, Reads, octets_of};
ghost use Rattle.store_disk.specs.Meaning.{Meaning, Counts};
ghost use Rattle.store_disk.specs.Story.{Cuts, Syncs, Writes, reads};

use crate::Area;

/// The last place at which a write may end, in octets.
pub const LAST_END: u64 = 1 << 62;

/// Whether a write of so many octets would end past `LAST_END`.
pub fn ends_late(at: u64, count: u64) -> bool
    ensures { IsTrue result ↔ (last_end < at + count) }
{
    at > LAST_END || count > LAST_END - at
}

/// A call of a disk failed, and the disk has counted it.
#[derive(Clone, Copy, Debug, PartialEq)]
pub struct DiskFailed;

/// Three areas of octets. Each call counts, and fails only where the disk's count of faults rose.
pub trait Disk {
    /// What disks of this type tell, and of each its story, its faults and its calls.
    ghost meaning: { Meaning Self };

    /// The number of octets in an area.
    fn size(&mut self, area: Area) -> Result<u64, DiskFailed>
        ensures counted { Counts meaning self.old self.new result }
        ensures kept { meaning.story self.new ≡ meaning.story self.old }
        ensures size { IfOk result (λ size. OnTrue meaning.tells (size ≡ length (octets_of (reads (meaning.story self.old)) area))) };

    /// Fills `into` with the octets of an area from `at` on, which is in octets.
    fn read(&mut self, area: Area, at: u64, into: &mut [u8]) -> Result<(), DiskFailed>
        requires { OnTrue meaning.tells (IsWithin (reads (meaning.story self.old)) area (at + length into.old)) }
        ensures counted { Counts meaning self.old self.new result }
        ensures kept { meaning.story self.new ≡ meaning.story self.old }
        ensures read { OnOk result (OnTrue meaning.tells (Reads (reads (meaning.story self.old)) area at into.new)) };

    /// Writes octets over an area from `at` on, and past its end. A write that would end past `LAST_END` fails. After a
    /// fault any octets may stand in its range; the rest of the area, and the others, are as they were.
    fn write_at(&mut self, area: Area, at: u64, bytes: &[u8]) -> Result<(), DiskFailed>
        requires some { 0 < length bytes.now }
        requires inside { OnTrue meaning.tells (IsWithin (reads (meaning.story self.old)) area at) }
        ensures counted { Counts meaning self.old self.new result }
        ensures written { OnTrue meaning.tells (Writes area at bytes.now result (meaning.story self.old) (meaning.story self.new)) }
        ensures end { OnOk result (at + length bytes.now ≤ last_end) };

    /// Cuts an area to a size in octets. After a fault it has some length between.
    fn cut(&mut self, area: Area, size: u64) -> Result<(), DiskFailed>
        requires inside { OnTrue meaning.tells (IsWithin (reads (meaning.story self.old)) area size) }
        ensures counted { Counts meaning self.old self.new result }
        ensures cut { OnTrue meaning.tells (Cuts area size result (meaning.story self.old) (meaning.story self.new)) };

    /// Puts what was done to an area where a stop leaves it.
    fn sync(&mut self, area: Area) -> Result<(), DiskFailed>
        ensures counted { Counts meaning self.old self.new result }
        ensures synced { OnTrue meaning.tells (Syncs area result (meaning.story self.old) (meaning.story self.new)) };
}
