//! What an opening finds: which area is picked, and what it holds.

ghost use Rattle.std.specs.Prelude.{◌≡◌, ℕ, drop, IfOk, IfErr, OnOk, None, Some};
ghost use Rattle.std.specs.Bool.{OnTrue};
ghost use Rattle.store_disk.specs.Disk.{octets_of};
ghost use Rattle.store_disk.specs.Story.{IsImage, LeavesOnly, reads};
ghost use Rattle.store_journal.specs.Area.{picked, stands, payloads_in};
ghost use Rattle.store_journal.specs.Costs.{Spares, Spends};
ghost use Rattle.store_journal.specs.Journal.{IsCause, IsUnlessDisk, IsUntouched, OpensOver};
ghost use Rattle.store_journal.specs.Opening.{AreAtRest, IsFound};

use crate::OpenFault;
use crate::area_text::{check, fresh_area};
use crate::birth::bear;
use crate::header::HEADER;
use crate::pick::read_pick;
use std::alloc::Global;
use store_disk::{Area, Disk, DiskFailed};

/// What an opening found: the picked area, its octets, the place of the first unit in them, and the
/// place of the closed gate in the area.
pub struct Found {
    pub area: Area,
    pub birth: u64,
    pub octets: Vec<u8>,
    pub place: usize,
    pub end: u64,
}

// Puts all areas at rest, so that what is read of them stays.
fn settle<D: Disk>(disk: &mut D) -> Result<(), DiskFailed>
    ensures rest { OnOk result (OnTrue D.meaning.tells (AreAtRest (D.meaning.story disk.new))) }
    ensures same { OnTrue D.meaning.tells (reads (D.meaning.story disk.new) ≡ reads (D.meaning.story disk.old)) }
    ensures stops { OnTrue D.meaning.tells (LeavesOnly (D.meaning.story disk.old) (D.meaning.story disk.new) (IsImage (D.meaning.story disk.old))) }
    ensures spends { Spends D.meaning 3 disk.old disk.new result }
{
    disk.sync(Area::A)?;
    disk.sync(Area::B)?;
    disk.sync(Area::Pick)
}

// All octets of an area, in one read.
fn read_whole<D: Disk>(alloc: Global, disk: &mut D, area: Area) -> Result<Vec<u8>, OpenFault>
    ensures octets { IfOk result (λ octets. OnTrue D.meaning.tells (octets.items ≡ octets_of (reads (D.meaning.story disk.old)) area)) }
    ensures kept { D.meaning.story disk.new ≡ D.meaning.story disk.old }
    ensures cause { IfErr result (λ fault. OnTrue D.meaning.tells (IsCause (reads (D.meaning.story disk.old)) fault)) }
    ensures spares { Spares D.meaning 2 disk.old disk.new result }
{
    let size = disk.size(area)?;
    let mut octets = vec![in alloc; 0u8; size as usize]?;
    disk.read(area, 0, &mut octets)?;
    Ok(octets)
}

// The picked area: its birth and its payloads.
fn load_area<D: Disk>(alloc: Global, disk: &mut D, area: Area) -> Result<Found, OpenFault>
    requires picks { OnTrue D.meaning.tells (picked (reads (D.meaning.story disk.old)).pick ≡ Some area) }
    requires rest { OnTrue D.meaning.tells (AreAtRest (D.meaning.story disk.old)) }
    ensures found { IfOk result (λ found. (birth : ℕ) → IsFound D.meaning.tells (D.meaning.story disk.old) (D.meaning.story disk.new) birth found (payloads_in (drop found.place found.octets.items))) }
    ensures cause { IfErr result (λ fault. OnTrue D.meaning.tells (IsCause (reads (D.meaning.story disk.old)) fault)) }
    ensures kept { D.meaning.story disk.new ≡ D.meaning.story disk.old }
    ensures spares { Spares D.meaning 2 disk.old disk.new result }
{
    let octets = read_whole(alloc, disk, area)?;
    match check(area, &octets) {
        Ok((birth, end)) => Ok(Found {
            area,
            birth,
            octets,
            place: HEADER,
            end: end as u64,
        }),
        Err(fault) => Err(fault),
    }
}

// A store that isn't born, which is born now.
fn bear_found<D: Disk>(alloc: Global, disk: &mut D, birth: u64) -> Result<Found, OpenFault>
    requires unpicked { OnTrue D.meaning.tells (picked (reads (D.meaning.story disk.old)).pick ≡ None) }
    requires rest { OnTrue D.meaning.tells (AreAtRest (D.meaning.story disk.old)) }
    ensures found { IfOk result (λ found. IsFound D.meaning.tells (D.meaning.story disk.old) (D.meaning.story disk.new) birth found (payloads_in (drop found.place found.octets.items))) }
    ensures stops { OnTrue D.meaning.tells (OpensOver birth (D.meaning.story disk.old) (D.meaning.story disk.new)) }
    ensures cause { IfErr result (λ fault. OnTrue D.meaning.tells (IsCause (reads (D.meaning.story disk.old)) fault)) }
    ensures untouched { OnTrue D.meaning.tells (IsUntouched (reads (D.meaning.story disk.old)) (reads (D.meaning.story disk.new))) }
    ensures unchanged { IfErr result (λ fault. OnTrue D.meaning.tells (IsUnlessDisk fault (D.meaning.story disk.new ≡ D.meaning.story disk.old))) }
    ensures spares { Spares D.meaning 8 disk.old disk.new result }
{
    let mut octets = Vec::new(alloc);
    octets.extend_from_slice(&fresh_area(birth))?;
    bear(disk, birth)?;
    Ok(Found {
        area: Area::A,
        birth,
        octets,
        place: HEADER,
        end: HEADER as u64,
    })
}

// What a store at rest holds: that of its picked area, or nothing, where it isn't born and is born now.
fn load_at_rest<D: Disk>(alloc: Global, disk: &mut D, birth: u64) -> Result<Found, OpenFault>
    requires rest { OnTrue D.meaning.tells (AreAtRest (D.meaning.story disk.old)) }
    ensures found { IfOk result (λ found. IsFound D.meaning.tells (D.meaning.story disk.old) (D.meaning.story disk.new) birth found (payloads_in (drop found.place found.octets.items))) }
    ensures stops { OnTrue D.meaning.tells (OpensOver birth (D.meaning.story disk.old) (D.meaning.story disk.new)) }
    ensures cause { IfErr result (λ fault. OnTrue D.meaning.tells (IsCause (reads (D.meaning.story disk.old)) fault)) }
    ensures untouched { OnTrue D.meaning.tells (IsUntouched (reads (D.meaning.story disk.old)) (reads (D.meaning.story disk.new))) }
    ensures unchanged { IfErr result (λ fault. OnTrue D.meaning.tells (IsUnlessDisk fault (D.meaning.story disk.new ≡ D.meaning.story disk.old))) }
    ensures spares { Spares D.meaning 10 disk.old disk.new result }
{
    match read_pick(disk)? {
        Some(area) => load_area(alloc, disk, area),
        None => bear_found(alloc, disk, birth),
    }
}

/// What a store holds, once all its areas are at rest: that of its picked area, or nothing, where it isn't born and is born now.
pub fn load<D: Disk>(alloc: Global, disk: &mut D, birth: u64) -> Result<Found, OpenFault>
    ensures found { IfOk result (λ found. IsFound D.meaning.tells (D.meaning.story disk.old) (D.meaning.story disk.new) birth found (payloads_in (drop found.place found.octets.items))) }
    ensures stops { OnTrue D.meaning.tells (OpensOver birth (D.meaning.story disk.old) (D.meaning.story disk.new)) }
    ensures cause { IfErr result (λ fault. OnTrue D.meaning.tells (IsCause (reads (D.meaning.story disk.old)) fault)) }
    ensures untouched { OnTrue D.meaning.tells (IsUntouched (reads (D.meaning.story disk.old)) (reads (D.meaning.story disk.new))) }
    ensures unchanged { IfErr result (λ fault. OnTrue D.meaning.tells (IsUnlessDisk fault (reads (D.meaning.story disk.new) ≡ reads (D.meaning.story disk.old)))) }
    ensures spares { Spares D.meaning 13 disk.old disk.new result }
{
    settle(disk)?;
    load_at_rest(alloc, disk, birth)
}
