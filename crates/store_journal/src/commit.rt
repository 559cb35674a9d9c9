//! What is written to a disk to stay there.

ghost use Rattle.std.specs.Prelude.{◌<◌, ◌≤◌, ◌+◌, length, OnOk};
ghost use Rattle.std.specs.Bool.{OnTrue};
ghost use Rattle.store_disk.specs.Disk.{IsWithin, last_end};
ghost use Rattle.store_disk.specs.Story.{reads};
ghost use Rattle.store_journal.specs.Costs.{Spends};
ghost use Rattle.store_journal.specs.Keeping.{WritesSynced};

use store_disk::{Area, Disk, DiskFailed};

/// Writes octets to an area from a place on, which is in octets, and syncs the area.
pub fn write_synced<D: Disk>(
    disk: &mut D,
    area: Area,
    at: u64,
    octets: &[u8],
) -> Result<(), DiskFailed>
    requires some { 0 < length octets.now }
    requires inside { OnTrue D.meaning.tells (IsWithin (reads (D.meaning.story disk.old)) area at) }
    ensures written { OnTrue D.meaning.tells (WritesSynced area at octets.now result (D.meaning.story disk.old) (D.meaning.story disk.new)) }
    ensures end { OnOk result (at + length octets.now ≤ last_end) }
    ensures spends { Spends D.meaning 2 disk.old disk.new result }
{
    disk.write_at(area, at, octets)?;
    disk.sync(area)
}
