//! The birth of a store that isn't born.

ghost use Rattle.std.specs.Prelude.{◌≡◌, ◌≤◌, [], length, IfErr, OnOk, None};
ghost use Rattle.std.specs.Bool.{OnTrue};
ghost use Rattle.store_disk.specs.Disk.{octets_of};
ghost use Rattle.store_disk.specs.Story.{LeavesOnly, reads};
ghost use Rattle.store_journal.specs.Area.{picked, stands, unborn};
ghost use Rattle.store_journal.specs.Costs.{Spares, Spends};
ghost use Rattle.store_journal.specs.Journal.{IsCause, IsUnlessDisk, IsUntouched, OpensOver};
ghost use Rattle.store_journal.specs.Keeping.{IsKeptBy};
ghost use Rattle.store_journal.specs.Opening.{AreAtRest, AreSmall, IsMore, IsUnbornOrFresh, most_unpicked};

use crate::OpenFault;
use crate::area_text::{FRESH, fresh_area};
use crate::commit::write_synced;
use crate::pick::PICKS_A;
use store_disk::{Area, Disk, DiskFailed};

// Refuses an area of a store that isn't born, where it holds more than a birth would write.
fn refuse_more<D: Disk>(disk: &mut D, area: Area) -> Result<(), OpenFault>
    ensures small { OnOk result (OnTrue D.meaning.tells (length (octets_of (reads (D.meaning.story disk.old)) area) ≤ 17)) }
    ensures cause { IfErr result (IsMore D.meaning.tells (reads (D.meaning.story disk.old)) area) }
    ensures kept { D.meaning.story disk.new ≡ D.meaning.story disk.old }
    ensures spares { Spares D.meaning 1 disk.old disk.new result }
{
    if disk.size(area)? > FRESH as u64 {
        return Err(OpenFault::Foreign {
            area,
            at: FRESH as u64,
        });
    }
    Ok(())
}

// Writes a store without payloads: both areas, and then Pick, each at rest before the next.
fn write_fresh<D: Disk>(disk: &mut D, birth: u64) -> Result<(), DiskFailed>
    requires small { OnTrue D.meaning.tells (AreSmall most_unpicked (D.meaning.story disk.old)) }
    ensures kept { OnOk result (OnTrue D.meaning.tells (IsKeptBy (D.meaning.story disk.new) Area.A birth [] None)) }
    ensures stops { OnTrue D.meaning.tells (LeavesOnly (D.meaning.story disk.old) (D.meaning.story disk.new) (IsUnbornOrFresh birth)) }
    ensures spends { Spends D.meaning 6 disk.old disk.new result }
{
    let octets = fresh_area(birth);
    write_synced(disk, Area::A, 0, &octets)?;
    write_synced(disk, Area::B, 0, &octets)?;
    write_synced(disk, Area::Pick, 0, &[PICKS_A])
}

/// Gives birth to a store that isn't born.
pub fn bear<D: Disk>(disk: &mut D, birth: u64) -> Result<(), OpenFault>
    requires unpicked { OnTrue D.meaning.tells (picked (reads (D.meaning.story disk.old)).pick ≡ None) }
    requires rest { OnTrue D.meaning.tells (AreAtRest (D.meaning.story disk.old)) }
    ensures unborn { OnOk result (OnTrue D.meaning.tells (stands (reads (D.meaning.story disk.old)) ≡ unborn)) }
    ensures kept { OnOk result (OnTrue D.meaning.tells (IsKeptBy (D.meaning.story disk.new) Area.A birth [] None)) }
    ensures stops { OnTrue D.meaning.tells (OpensOver birth (D.meaning.story disk.old) (D.meaning.story disk.new)) }
    ensures cause { IfErr result (λ fault. OnTrue D.meaning.tells (IsCause (reads (D.meaning.story disk.old)) fault)) }
    ensures untouched { OnTrue D.meaning.tells (IsUntouched (reads (D.meaning.story disk.old)) (reads (D.meaning.story disk.new))) }
    ensures unchanged { IfErr result (λ fault. OnTrue D.meaning.tells (IsUnlessDisk fault (D.meaning.story disk.new ≡ D.meaning.story disk.old))) }
    ensures spares { Spares D.meaning 8 disk.old disk.new result }
{
    refuse_more(disk, Area::A)?;
    refuse_more(disk, Area::B)?;
    write_fresh(disk, birth)?;
    Ok(())
}
