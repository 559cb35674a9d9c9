//! The journal: payloads handed out in order at the opening, and appended one by one after it.

ghost use Rattle.std.specs.Prelude.{◌≡◌, ◌<◌, ◌≤◌, ◌+◌, ◌∷◌, [], false, ℕ, List, length, Option, None, IfOk, IfErr, OnOk, OnErr};
ghost use Rattle.std.specs.Bool.{OnTrue};
ghost use Rattle.kn_base.specs.Count.{Rose};
ghost use Rattle.store_disk.specs.Story.{reads};
ghost use Rattle.store_journal.specs.Area.{IsPayload, stands, units};
ghost use Rattle.store_journal.specs.Journal.{Appends, HandsOn, HoldsSame, IsHandedOut, IsJournal, IsKept, OpensOver, Repairs, area_of, birth_of, disk_of, gate_of, is_unsure, left, next_gate, reserved, Hands, MovesOn, OpensAs, IsCause, IsUnlessDisk, IsUntouched};

use crate::OpenFault;
use crate::commit::write_synced;
use crate::found::{Found, load};
use crate::header::HEADER;
use crate::unit::{CLOSED, OPEN, first_unit, unit_and_gate};
use kn_base::{Memory, Octets};
use std::alloc::Global;
use store_disk::{Area, Disk, DiskFailed};

/// The payloads of a store, on a disk. A fault of the disk doesn't end it: each call tells what it leaves.
#[derive(Drop)]
pub struct Journal<D: Disk> {
    alloc: Global,
    disk: D,
    area: Area,
    birth: u64,
    // The octets of the picked area as the opening read them, and the place of the next unit in them.
    octets: Vec<u8>,
    place: usize,
    // The place of the closed gate.
    end: u64,
    // The reserved payload in its unit, with the closed gate behind it. It is empty where none is reserved.
    unit: Vec<u8>,
    // The place of the gate of the payload that `next` gave last.
    gate: u64,
    // The gate at `end` may stand open before a payload whose append failed.
    unsure: bool,
}

impl<D: Disk> Journal<D> {
    /// Opens the store on a disk, with all its payloads still to be handed out. Each area is synced first, so that what was read stands
    /// whatever a stop leaves. A store that isn't born is born with `birth`. `Foreign` comes where the areas are no store of
    /// ours, and leaves what they read as; `Disk` comes only where the disk counted a fault. Each fault gives the disk back.
    pub fn open(alloc: Global, disk: D, birth: u64) -> Result<Journal<D>, (D, OpenFault)>
        ensures opened { IfOk result (λ journal. IsJournal D.meaning journal (birth_of journal) (left journal) None) }
        ensures kept { IfOk result (IsKept D.meaning) }
        ensures unreserved { IfOk result (λ journal. reserved journal ≡ []) }
        ensures stood { IfOk result (λ journal. OnTrue D.meaning.tells
            (OpensAs (stands (reads (D.meaning.story disk))) birth (birth_of journal) (area_of journal) (left journal))) }
        ensures gate { IfOk result (λ journal. gate_of journal ≡ 16) }
        ensures next_gate { IfOk result (λ journal. next_gate journal ≡ 16) }
        ensures stops { IfOk result (λ journal. OnTrue D.meaning.tells (OpensOver birth (D.meaning.story disk) (D.meaning.story (disk_of journal)))) }
        ensures stops_back { IfErr result (λ fault. OnTrue D.meaning.tells (OpensOver birth (D.meaning.story disk) (D.meaning.story fault.0))) }
        ensures untouched { IfOk result (λ journal. OnTrue D.meaning.tells (IsUntouched (reads (D.meaning.story disk)) (reads (D.meaning.story (disk_of journal))))) }
        ensures untouched_back { IfErr result (λ fault. OnTrue D.meaning.tells (IsUntouched (reads (D.meaning.story disk)) (reads (D.meaning.story fault.0)))) }
        ensures unchanged { IfErr result (λ fault. OnTrue D.meaning.tells (IsUnlessDisk fault.1 (reads (D.meaning.story fault.0) ≡ reads (D.meaning.story disk)))) }
        ensures cause { IfErr result (λ fault. OnTrue D.meaning.tells (IsCause (reads (D.meaning.story disk)) fault.1)) }
        ensures unfailed { IfOk result (λ journal. D.meaning.faults (disk_of journal) ≡ D.meaning.faults disk) }
        ensures spared { IfErr result (λ fault. IsUnlessDisk fault.1 (D.meaning.faults fault.0 ≡ D.meaning.faults disk)) }
        ensures failed { IfErr result (λ fault. (fault.1 ≡ OpenFault.Disk) → Rose (D.meaning.faults disk) (D.meaning.faults fault.0)) }
        ensures faults { IfErr result (λ fault. D.meaning.faults disk ≤ D.meaning.faults fault.0) }
        ensures calls { IfOk result (λ journal. D.meaning.calls (disk_of journal) ≤ D.meaning.calls disk + 13) }
        ensures calls_back { IfErr result (λ fault. D.meaning.calls fault.0 ≤ D.meaning.calls disk + 13) }
    {
        let mut disk = disk;
        match load(alloc, &mut disk, birth) {
            Ok(found) => {
                let Found {
                    area,
                    birth,
                    octets,
                    place,
                    end,
                } = found;
                Ok(Journal {
                    alloc,
                    disk,
                    area,
                    birth,
                    octets,
                    place,
                    end,
                    unit: Vec::new(alloc),
                    gate: HEADER as u64,
                    unsure: false,
                })
            }
            Err(fault) => Err((disk, fault)),
        }
    }

    /// The birth of the store: the number that it was born with.
    pub fn birth(&self) -> u64
        ensures { result ≡ birth_of self.now }
    {
        self.birth
    }

    /// The picked area, and the place in it, in octets, of the gate of the payload that `next` gave last: 16 before the first `next`, and the
    /// closed gate that the opening found after `None`.
    pub fn place(&self) -> (Area, u64)
        ensures { result ≡ (area_of self.now, gate_of self.now) }
    {
        (self.area, self.gate)
    }

    /// How many octets the picked area has of a state, which is none yet, and of entries: their units, without the header and the closed gate.
    pub fn sizes(&self) -> (u64, u64)
        requires { IsKept D.meaning self.now }
        ensures state { result.0 ≡ 0 }
        ensures entries { (birth : ℕ) (payloads : List (List ℕ)) (unsure : Option (List ℕ)) →
            IsJournal D.meaning self.now birth payloads unsure → result.1 ≡ length (units payloads) }
    {
        (0, self.end - HEADER as u64)
    }

    /// Whether the gate of a payload whose append failed may stand open, so that `repair` comes before the next append.
    pub fn unsure(&self) -> bool
        ensures { result ≡ is_unsure self.now }
    {
        self.unsure
    }

    /// The next payload, in order, or `None` behind the last. Only `Memory` is answered here, and it
    /// leaves the place.
    pub fn next(&mut self) -> Result<Option<Octets>, OpenFault>
        requires { IsKept D.meaning self.old }
        ensures next { Hands (left self.old) result (left self.new) }
        ensures gate { MovesOn self.old result self.new }
        ensures disk { disk_of self.new ≡ disk_of self.old }
        ensures area { area_of self.new ≡ area_of self.old }
        ensures birth { birth_of self.new ≡ birth_of self.old }
        ensures unsure { is_unsure self.new ≡ is_unsure self.old }
        ensures reserved { reserved self.new ≡ reserved self.old }
        ensures kept { IsKept D.meaning self.new }
        ensures same { HoldsSame D.meaning self.old self.new }
    {
        let Some((payload, behind)) = first_unit(&self.octets[self.place..])? else {
            self.gate = self.place as u64;
            return Ok(None);
        };
        let payload = Octets::from_slice(self.alloc, payload)?;
        self.gate = self.place as u64;
        self.place = self.octets.len() - behind.len();
        Ok(Some(payload))
    }

    /// Makes a payload of 1 to 16,777,216 octets the reserved one, in place of another. All memory for
    /// its append is taken here. After `Memory` what was reserved still is.
    pub fn reserve(&mut self, payload: &[u8]) -> Result<(), Memory>
        requires kept { IsKept D.meaning self.old }
        requires size { IsPayload payload.now }
        ensures ok { OnOk result (reserved self.new ≡ payload.now) }
        ensures err { OnErr result (reserved self.new ≡ reserved self.old) }
        ensures left { left self.new ≡ left self.old }
        ensures disk { disk_of self.new ≡ disk_of self.old }
        ensures area { area_of self.new ≡ area_of self.old }
        ensures birth { birth_of self.new ≡ birth_of self.old }
        ensures unsure { is_unsure self.new ≡ is_unsure self.old }
        ensures gate { gate_of self.new ≡ gate_of self.old }
        ensures next_gate { next_gate self.new ≡ next_gate self.old }
        ensures kept { IsKept D.meaning self.new }
        ensures same { HoldsSame D.meaning self.old self.new }
    {
        self.unit = unit_and_gate(self.alloc, payload)?;
        Ok(())
    }

    /// Appends the reserved payload in four disk calls, and takes no memory: its length, its octets and a closed gate behind the closed gate,
    /// a sync, the gate opened, a sync. Whatever is answered, nothing is reserved then. After a fault of the first two calls the journal is
    /// as it was; after one of the last two the payload is unsure.
    pub fn append(&mut self) -> Result<(), DiskFailed>
        requires kept { IsKept D.meaning self.old }
        requires sure { is_unsure self.old ≡ false }
        requires ended { IsHandedOut self.old }
        requires reserved { 0 < length (reserved self.old) }
        ensures appended { (birth : ℕ) (payloads : List (List ℕ)) → IsJournal D.meaning self.old birth payloads None →
            Appends D.meaning self.old self.new result birth payloads }
        ensures kept { IsKept D.meaning self.new }
        ensures sure { OnOk result (is_unsure self.new ≡ false) }
        ensures ended { IsHandedOut self.new }
        ensures nothing_reserved { reserved self.new ≡ [] }
        ensures area { area_of self.new ≡ area_of self.old }
        ensures birth { birth_of self.new ≡ birth_of self.old }
        ensures calls { D.meaning.calls (disk_of self.new) ≤ D.meaning.calls (disk_of self.old) + 4 }
        ensures unfailed { OnOk result (D.meaning.faults (disk_of self.new) ≡ D.meaning.faults (disk_of self.old)) }
        ensures failed { OnErr result (Rose (D.meaning.faults (disk_of self.old)) (D.meaning.faults (disk_of self.new))) }
        ensures faults { D.meaning.faults (disk_of self.old) ≤ D.meaning.faults (disk_of self.new) }
    {
        if let Err(failed) = write_synced(
            &mut self.disk,
            self.area,
            self.end + 1,
            &self.unit[1..],
        ) {
            self.unit.clear();
            return Err(failed);
        }
        if let Err(failed) = write_synced(&mut self.disk, self.area, self.end, &[OPEN]) {
            self.unsure = true;
            self.unit.clear();
            return Err(failed);
        }
        self.end += self.unit.len() as u64 - 1;
        self.unit.clear();
        Ok(())
    }

    /// Closes the unsure gate for good: a write and a sync. Where nothing is unsure it makes no call. After a fault it is still unsure.
    pub fn repair(&mut self) -> Result<(), DiskFailed>
        requires kept { IsKept D.meaning self.old }
        ensures repaired { (birth : ℕ) (payloads : List (List ℕ)) (unsure : Option (List ℕ)) → IsJournal D.meaning self.old birth payloads unsure →
            Repairs D.meaning self.old self.new result birth payloads unsure }
        ensures kept { IsKept D.meaning self.new }
        ensures idle { is_unsure self.old ≡ false → self.new ≡ self.old }
        ensures sure { OnOk result (is_unsure self.new ≡ false) }
        ensures still { OnErr result (is_unsure self.new ≡ is_unsure self.old) }
        ensures left { left self.new ≡ left self.old }
        ensures reserved { reserved self.new ≡ reserved self.old }
        ensures area { area_of self.new ≡ area_of self.old }
        ensures birth { birth_of self.new ≡ birth_of self.old }
        ensures gate { gate_of self.new ≡ gate_of self.old }
        ensures next_gate { next_gate self.new ≡ next_gate self.old }
        ensures calls { D.meaning.calls (disk_of self.new) ≤ D.meaning.calls (disk_of self.old) + 2 }
        ensures unfailed { OnOk result (D.meaning.faults (disk_of self.new) ≡ D.meaning.faults (disk_of self.old)) }
        ensures failed { OnErr result (Rose (D.meaning.faults (disk_of self.old)) (D.meaning.faults (disk_of self.new))) }
        ensures faults { D.meaning.faults (disk_of self.old) ≤ D.meaning.faults (disk_of self.new) }
    {
        if !self.unsure {
            return Ok(());
        }
        write_synced(&mut self.disk, self.area, self.end, &[CLOSED])?;
        self.unsure = false;
        Ok(())
    }

    /// Ends the journal and gives its disk back. Whatever a stop leaves of it from then on, an opening of that hands out what the journal held,
    /// under its birth.
    pub fn close(self) -> D
        ensures disk { result ≡ disk_of self }
        ensures hands_on { (birth : ℕ) (payloads : List (List ℕ)) (unsure : Option (List ℕ)) → IsJournal D.meaning self birth payloads unsure
            → OnTrue D.meaning.tells (HandsOn (D.meaning.story result) birth payloads unsure) }
    {
        let Journal {
            alloc: _,
            disk,
            area: _,
            birth: _,
            octets: _,
            place: _,
            end: _,
            unit: _,
            gate: _,
            unsure: _,
        } = self;
        disk
    }
}
