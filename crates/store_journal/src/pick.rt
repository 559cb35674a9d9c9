//! The area that says which of the other two counts.

ghost use Rattle.std.specs.Prelude.{◌≡◌, IfOk, IfErr};
ghost use Rattle.std.specs.Bool.{OnTrue};
ghost use Rattle.store_disk.specs.Story.{reads};
ghost use Rattle.store_journal.specs.Area.{picked};
ghost use Rattle.store_journal.specs.Costs.{Spares};

use crate::OpenFault;
use store_disk::{Area, Disk};

/// The first octet of Pick that a birth writes. It picks the area A, as any does but that of B.
pub const PICKS_A: u8 = 1;

/// The first octet of Pick that picks the area B.
const PICKS_B: u8 = 2;

/// The area that Pick picks, if it holds an octet.
pub fn read_pick<D: Disk>(disk: &mut D) -> Result<Option<Area>, OpenFault>
    ensures pick { IfOk result (λ pick. OnTrue D.meaning.tells (pick ≡ picked (reads (D.meaning.story disk.old)).pick)) }
    ensures err { IfErr result (λ fault. fault ≡ OpenFault.Disk) }
    ensures kept { D.meaning.story disk.new ≡ D.meaning.story disk.old }
    ensures spares { Spares D.meaning 2 disk.old disk.new result }
{
    if disk.size(Area::Pick)? == 0 {
        return Ok(None);
    }
    let mut first = [0u8];
    disk.read(Area::Pick, 0, &mut first)?;
    Ok(Some(if first[0] == PICKS_B {
        Area::B
    } else {
        Area::A
    }))
}
