//! A disk in memory, for tests and for what needs no file. It tells its story, and fails when told to.

ghost use Rattle.std.specs.Prelude.{◌≡◌, ◌+◌, ◌≤◌, ◌∷◌, ◌↔◌, false, length, take, IfOk, OnOk, OnErr, IsErr};
ghost use Rattle.kn_base.specs.Calls.{IsFailing, one_more};
ghost use Rattle.kn_base.specs.Count.{next_count};
ghost use Rattle.store_disk.specs.Disk.{IsWithin, last_end};
ghost use Rattle.store_disk.specs.Meaning.{Counts};

use crate::disk::ends_late;
use crate::entry::{Deed, Entry};
use crate::mem_area::{behind, covered, write_over};
use crate::mem_stop::{before_all, entries_up_to, left_by};
use crate::{Area, Disk, DiskFailed};
use kn_base::{MemCalls, Memory, Octets, raised};
use std::alloc::Global;

/// Three areas in memory. The calls whose numbers, from 0, are in the list of failing ones fail, and leave what the
/// areas hold. Want of memory is a counted fault, and nothing else but these and
/// `LAST_END` makes a call fail. A write or a cut that failed is told as one that failed, unless it found no memory for its entry in the log.
#[derive(Drop)]
pub struct MemDisk {
    alloc: Global,
    a: Vec<u8>,
    b: Vec<u8>,
    pick: Vec<u8>,
    log: Vec<Entry>,
    calls: MemCalls,
    faults: u64,
    starved: u64,
}

impl MemDisk {
    ghost use Rattle.store_disk.specs.Disk.{octets_of};
    ghost use Rattle.store_disk.specs.MemDisk.{mem_areas, mem_calls, mem_faults, mem_story};
    ghost use Rattle.store_disk.specs.Stop.{IsNumbered};
    ghost use Rattle.store_disk.specs.Story.{reads, untold};

    /// A disk that holds these octets, on which no call was made. It takes no memory.
    pub fn new(alloc: Global, a: Octets, b: Octets, pick: Octets, failing: Vec<u64>) -> MemDisk
        ensures areas { mem_areas result ≡ record { a = a; b = b; pick = pick } }
        ensures story { mem_story result ≡ untold (mem_areas result) }
        ensures calls { mem_calls result ≡ record { failing = failing.items; made = 0 } }
        ensures numbered { IsNumbered result }
        ensures faults { mem_faults result ≡ 0 }
    {
        MemDisk {
            alloc,
            a: a.into_vec(),
            b: b.into_vec(),
            pick: pick.into_vec(),
            log: Vec::new(alloc),
            calls: MemCalls::new(failing),
            faults: 0,
            starved: 0,
        }
    }

    /// The disk with what it holds, as one on which no call was made.
    pub fn anew(self) -> MemDisk
        ensures areas { mem_areas result ≡ mem_areas self }
        ensures story { mem_story result ≡ untold (mem_areas self) }
        ensures calls { mem_calls result ≡ record (mem_calls self) { made = 0 } }
        ensures numbered { IsNumbered result }
        ensures faults { mem_faults result ≡ 0 }
    {
        MemDisk {
            alloc: self.alloc,
            a: self.a,
            b: self.b,
            pick: self.pick,
            log: Vec::new(self.alloc),
            calls: self.calls.anew(),
            faults: 0,
            starved: 0,
        }
    }

    /// What an area holds.
    #[tactic(auto, using(crate::proofs::Told::read_told))]
    pub fn area(&self, area: Area) -> &[u8]
        ensures held { result.now ≡ octets_of (mem_areas self.now) area }
        ensures read { result.now ≡ octets_of (reads (mem_story self.now)) area }
    {
        match area {
            Area::A => self.a.as_slice(),
            Area::B => self.b.as_slice(),
            Area::Pick => self.pick.as_slice(),
        }
    }

    /// How many calls were made.
    pub fn calls(&self) -> u64
        ensures { result ≡ (mem_calls self.now).made }
    {
        self.calls.made()
    }

    /// How many calls failed.
    pub fn faults(&self) -> u64
        ensures { result ≡ mem_faults self.now }
    {
        self.faults
    }
}

impl MemDisk {
    ghost use Rattle.store_disk.specs.Disk.{octets_of};
    ghost use Rattle.store_disk.specs.MemDisk.{mem_areas, mem_calls, mem_faults, mem_story};
    ghost use Rattle.std.specs.Prelude.{ℕ, []};
    ghost use Rattle.store_disk.specs.declared.area.Area.{Area};
    ghost use Rattle.store_disk.specs.Stop.{IsNumbered, stop_choice, stop_moment, stopped_octets};
    ghost use Rattle.store_disk.specs.Story.{IsImage, IsImageSince, past_of, untold, up_to};

    /// The disk after a stop in the call of this number, as one on which no call was made: a sync has put nothing in place yet. Of what that
    /// call and those before it left in doubt, choice 0 keeps the old octets and the old length, 1 takes the new ones, and any other octet
    /// stands at each place in doubt, in the new length. Where no such call was made it is the disk as it reads.
    pub fn stopped(&self, alloc: Global, call: u64, choice: u8) -> Result<MemDisk, Memory>
        ensures octets { IfOk result (λ stopped. (area : Area) → octets_of (mem_areas stopped) area ≡ stopped_octets (past_of (up_to (stop_moment call self.now) (mem_story self.now)) area) (stop_choice call choice self.now)) }
        ensures image { IfOk result (λ stopped. IsImage (up_to (stop_moment call self.now) (mem_story self.now)) (mem_areas stopped)) }
        ensures since { IfOk result (λ stopped. (since : ℕ) → since ≤ stop_moment call self.now → IsImageSince since (mem_story self.now) (mem_areas stopped)) }
        ensures unmade { (mem_calls self.now).made ≤ call → IfOk result (λ stopped. mem_areas stopped ≡ mem_areas self.now) }
        ensures story { IfOk result (λ stopped. mem_story stopped ≡ untold (mem_areas stopped)) }
        ensures calls { IfOk result (λ stopped. mem_calls stopped ≡ record { failing = []; made = 0 }) }
        ensures numbered { IfOk result IsNumbered }
        ensures faults { IfOk result (λ stopped. mem_faults stopped ≡ 0) }
    {
        let (moment, choice) = self.stop(call, choice);
        self.stopped_at(alloc, moment, choice)
    }

    // The disk after a stop at a moment.
    fn stopped_at(&self, alloc: Global, moment: usize, choice: u8) -> Result<MemDisk, Memory>
        requires { moment ≤ length self.now.log.items }
        ensures octets { IfOk result (λ stopped. (area : Area) → octets_of (mem_areas stopped) area ≡ stopped_octets (past_of (up_to moment (mem_story self.now)) area) choice) }
        ensures story { IfOk result (λ stopped. mem_story stopped ≡ untold (mem_areas stopped)) }
        ensures calls { IfOk result (λ stopped. mem_calls stopped ≡ record { failing = []; made = 0 }) }
        ensures numbered { IfOk result IsNumbered }
        ensures faults { IfOk result (λ stopped. mem_faults stopped ≡ 0) }
    {
        let a = self.left(alloc, Area::A, moment, choice)?;
        let b = self.left(alloc, Area::B, moment, choice)?;
        let pick = self.left(alloc, Area::Pick, moment, choice)?;
        Ok(MemDisk::new(alloc, a, b, pick, Vec::new(alloc)))
    }

    // The moment of a stop in a call, and what is chosen there.
    fn stop(&self, call: u64, choice: u8) -> (usize, u8)
        ensures moment { result.0 ≡ stop_moment call self.now }
        ensures choice { result.1 ≡ stop_choice call choice self.now }
        ensures reached { result.0 ≤ length self.now.log.items }
    {
        if call < self.calls.made() {
            (entries_up_to(&self.log, call), choice)
        } else {
            (self.log.len(), 1)
        }
    }

    // What a stop at a moment leaves of an area.
    fn left(&self, alloc: Global, area: Area, moment: usize, choice: u8) -> Result<Octets, Memory>
        requires { moment ≤ length self.now.log.items }
        ensures { IfOk result (λ left. left ≡ stopped_octets (past_of (up_to moment (mem_story self.now)) area) choice) }
    {
        let (log, later) = self.log.as_slice().split_at(moment);
        let now = Octets::from_slice(alloc, self.area(area))?;
        left_by(
            alloc,
            log,
            area,
            before_all(alloc, later, area, now)?,
            choice,
        )
    }
}

// What each call does, which isn't counted yet.
impl MemDisk {
    ghost use Rattle.std.specs.Prelude.{true, IsOk};
    ghost use Rattle.store_disk.specs.Disk.{Reads, after_write, octets_of, with_octets};
    ghost use Rattle.store_disk.specs.MemDisk.{cut_entry, mem_areas, mem_calls, mem_faults, mem_log, mem_starved, write_entry};
    ghost use Rattle.kn_base.specs.Count.{Rose};

    // Notes what a call did. After `Memory`, which is counted, it isn't noted.
    fn note(&mut self, entry: Entry) -> Result<(), Memory>
        ensures ok { OnOk result (mem_log self.new ≡ entry ∷ mem_log self.old) }
        ensures err { OnErr result (mem_log self.new ≡ mem_log self.old) }
        ensures unstarved { OnOk result (mem_starved self.new ≡ mem_starved self.old) }
        ensures starved { OnErr result (Rose (mem_starved self.old) (mem_starved self.new)) }
        ensures areas { mem_areas self.new ≡ mem_areas self.old }
        ensures calls { mem_calls self.new ≡ mem_calls self.old }
        ensures faults { mem_faults self.new ≡ mem_faults self.old }
    {
        let done = self.log.push(entry).is_ok();
        self.noted(done)
    }

    // Counts want of memory where an entry isn't noted.
    fn noted(&mut self, done: bool) -> Result<(), Memory>
        ensures done { IsOk result ↔ (done ≡ true) }
        ensures unstarved { OnOk result (mem_starved self.new ≡ mem_starved self.old) }
        ensures starved { OnErr result (Rose (mem_starved self.old) (mem_starved self.new)) }
        ensures log { mem_log self.new ≡ mem_log self.old }
        ensures areas { mem_areas self.new ≡ mem_areas self.old }
        ensures calls { mem_calls self.new ≡ mem_calls self.old }
        ensures faults { mem_faults self.new ≡ mem_faults self.old }
    {
        if done {
            return Ok(());
        }
        self.starved = raised(self.starved);
        Err(Memory)
    }

    // Notes a write, and what stands in its range.
    fn note_write(&mut self, call: u64, area: Area, at: usize, count: usize) -> Result<(), Memory>
        requires { IsWithin (mem_areas self.old) area at }
        ensures ok { OnOk result (mem_log self.new ≡ write_entry call area at count (mem_areas self.old) ∷ mem_log self.old) }
        ensures err { OnErr result (mem_log self.new ≡ mem_log self.old) }
        ensures unstarved { OnOk result (mem_starved self.new ≡ mem_starved self.old) }
        ensures starved { OnErr result (Rose (mem_starved self.old) (mem_starved self.new)) }
        ensures areas { mem_areas self.new ≡ mem_areas self.old }
        ensures calls { mem_calls self.new ≡ mem_calls self.old }
        ensures faults { mem_faults self.new ≡ mem_faults self.old }
    {
        match covered(self.alloc, self.area(area), at, count) {
            Ok(was) => {
                let deed = Deed::Wrote { at, count, was };
                self.note(Entry { call, area, deed })
            }
            Err(Memory) => self.noted(false),
        }
    }

    // Notes a cut that was to leave so many octets, and what stands behind those that it leaves.
    fn note_cut(&mut self, call: u64, area: Area, size: usize, left: usize) -> Result<(), Memory>
        requires { IsWithin (mem_areas self.old) area left }
        ensures ok { OnOk result (mem_log self.new ≡ cut_entry call area size left (mem_areas self.old) ∷ mem_log self.old) }
        ensures err { OnErr result (mem_log self.new ≡ mem_log self.old) }
        ensures unstarved { OnOk result (mem_starved self.new ≡ mem_starved self.old) }
        ensures starved { OnErr result (Rose (mem_starved self.old) (mem_starved self.new)) }
        ensures areas { mem_areas self.new ≡ mem_areas self.old }
        ensures calls { mem_calls self.new ≡ mem_calls self.old }
        ensures faults { mem_faults self.new ≡ mem_faults self.old }
    {
        match behind(self.alloc, self.area(area), left) {
            Ok(was) => {
                let deed = Deed::Cut { size, was };
                self.note(Entry { call, area, deed })
            }
            Err(Memory) => self.noted(false),
        }
    }

    // Writes to an area. After `Memory` nothing has changed.
    fn put(&mut self, area: Area, at: usize, bytes: &[u8]) -> Result<(), Memory>
        requires { IsWithin (mem_areas self.old) area at }
        ensures ok { OnOk result (mem_areas self.new ≡ after_write area at bytes.now (mem_areas self.old)) }
        ensures err { OnErr result (mem_areas self.new ≡ mem_areas self.old) }
        ensures starved { mem_starved self.new ≡ mem_starved self.old }
        ensures log { mem_log self.new ≡ mem_log self.old }
        ensures calls { mem_calls self.new ≡ mem_calls self.old }
        ensures faults { mem_faults self.new ≡ mem_faults self.old }
    {
        match area {
            Area::A => write_over(&mut self.a, at, bytes),
            Area::B => write_over(&mut self.b, at, bytes),
            Area::Pick => write_over(&mut self.pick, at, bytes),
        }
    }

    // How many octets a cut leaves.
    fn left_by(&self, area: Area, size: usize, fails: bool) -> usize
        ensures all { fails ≡ true → result ≡ length (octets_of (mem_areas self.now) area) }
        ensures cut { fails ≡ false → result ≡ size }
    {
        if fails { self.area(area).len() } else { size }
    }

    // Fills `into` with the octets of an area from a place on.
    fn copy_out(&self, area: Area, from: usize, into: &mut [u8])
        requires { IsWithin (mem_areas self.now) area (from + length into.old) }
        ensures { Reads (mem_areas self.now) area from into.new }
    {
        into.copy_from_slice(&self.area(area)[from..from + into.len()]);
    }

    // Cuts an area.
    fn truncate(&mut self, area: Area, size: usize)
        ensures areas { mem_areas self.new ≡ with_octets (mem_areas self.old) area (take size (octets_of (mem_areas self.old) area)) }
        ensures log { mem_log self.new ≡ mem_log self.old }
        ensures calls { mem_calls self.new ≡ mem_calls self.old }
        ensures faults { mem_faults self.new ≡ mem_faults self.old }
    {
        match area {
            Area::A => self.a.truncate(size),
            Area::B => self.b.truncate(size),
            Area::Pick => self.pick.truncate(size),
        }
    }
}

// The calls, before their faults are counted.
impl MemDisk {
    ghost use Rattle.std.specs.Prelude.{◌⊎◌, true, IsTrue};
    ghost use Rattle.store_disk.specs.Stop.{NotesOne, NumbersCall};
    ghost use Rattle.store_disk.specs.MemDisk.{mem_areas, mem_calls, mem_faults, mem_log, mem_meaning, mem_starved, mem_story};
    ghost use Rattle.kn_base.specs.Count.{Rose, last_count};
    ghost use Rattle.store_disk.specs.Story.{Cuts, FailsToCut, FailsToWrite, Syncs, Writes};

    // A write, which may be one that fails. Whatever fails leaves what the areas hold.
    fn write(
        &mut self,
        call: u64,
        area: Area,
        at: usize,
        bytes: &[u8],
        fails: bool,
    ) -> Result<(), DiskFailed>
        requires { IsWithin (mem_areas self.old) area at }
        ensures written { Writes area at bytes.now result (mem_story self.old) (mem_story self.new) }
        ensures told { OnErr result (FailsToWrite area at bytes.now (mem_story self.old) (mem_story self.new) ⊎ Rose (mem_starved self.old) (mem_starved self.new)) }
        ensures noted { NotesOne false call (mem_log self.old) (mem_log self.new) }
        ensures due { OnOk result (fails ≡ false) }
        ensures cause { OnErr result ((fails ≡ true) ⊎ Rose (mem_starved self.old) (mem_starved self.new)) }
        ensures unwritten { OnErr result (mem_areas self.new ≡ mem_areas self.old) }
        ensures calls { mem_calls self.new ≡ mem_calls self.old }
        ensures faults { mem_faults self.new ≡ mem_faults self.old }
    {
        let Ok(()) = self.note_write(call, area, at, bytes.len()) else {
            return Err(DiskFailed);
        };
        if fails {
            return Err(DiskFailed);
        }
        match self.put(area, at, bytes) {
            Ok(()) => Ok(()),
            Err(Memory) => {
                self.starved = raised(self.starved);
                Err(DiskFailed)
            }
        }
    }

    // A cut, which may be one that fails. Whatever fails leaves what the areas hold.
    fn shorten(&mut self, call: u64, area: Area, size: usize, fails: bool) -> Result<(), DiskFailed>
        requires { IsWithin (mem_areas self.old) area size }
        ensures cut { Cuts area size result (mem_story self.old) (mem_story self.new) }
        ensures told { OnErr result (FailsToCut area size (mem_story self.old) (mem_story self.new) ⊎ Rose (mem_starved self.old) (mem_starved self.new)) }
        ensures noted { NotesOne false call (mem_log self.old) (mem_log self.new) }
        ensures due { OnOk result (fails ≡ false) }
        ensures cause { OnErr result ((fails ≡ true) ⊎ Rose (mem_starved self.old) (mem_starved self.new)) }
        ensures uncut { OnErr result (mem_areas self.new ≡ mem_areas self.old) }
        ensures calls { mem_calls self.new ≡ mem_calls self.old }
        ensures faults { mem_faults self.new ≡ mem_faults self.old }
    {
        let left = self.left_by(area, size, fails);
        let Ok(()) = self.note_cut(call, area, size, left) else {
            return Err(DiskFailed);
        };
        if fails {
            return Err(DiskFailed);
        }
        self.truncate(area, size);
        Ok(())
    }

    // A sync, which may be one that fails. It fails too where it can't be noted.
    fn settle(&mut self, call: u64, area: Area, fails: bool) -> Result<(), DiskFailed>
        ensures synced { Syncs area result (mem_story self.old) (mem_story self.new) }
        ensures noted { NotesOne true call (mem_log self.old) (mem_log self.new) }
        ensures due { OnOk result (fails ≡ false) }
        ensures cause { OnErr result ((fails ≡ true) ⊎ Rose (mem_starved self.old) (mem_starved self.new)) }
        ensures areas { mem_areas self.new ≡ mem_areas self.old }
        ensures calls { mem_calls self.new ≡ mem_calls self.old }
        ensures faults { mem_faults self.new ≡ mem_faults self.old }
    {
        if fails {
            return Err(DiskFailed);
        }
        let deed = Deed::Synced;
        match self.note(Entry { call, area, deed }) {
            Ok(()) => Ok(()),
            Err(Memory) => Err(DiskFailed),
        }
    }

    // Counts a call: its number, and whether it is to fail.
    fn next_call(&mut self) -> (u64, bool)
        ensures number { result.0 ≡ (mem_calls self.old).made }
        ensures within { (mem_calls self.old).made ≤ last_count }
        ensures fails { IsTrue result.1 ↔ IsFailing (mem_calls self.old) }
        ensures calls { mem_calls self.new ≡ one_more (mem_calls self.old) }
        ensures log { mem_log self.new ≡ mem_log self.old }
        ensures areas { mem_areas self.new ≡ mem_areas self.old }
        ensures faults { mem_faults self.new ≡ mem_faults self.old }
        ensures starved { mem_starved self.new ≡ mem_starved self.old }
    {
        let call = self.calls.made();
        (call, self.calls.next_fails())
    }

    // Counts a call that does nothing to the areas, and its fault where it is to fail.
    fn begin(&mut self) -> Result<(), DiskFailed>
        ensures fails { IsErr result ↔ IsFailing (mem_calls self.old) }
        ensures calls { mem_calls self.new ≡ one_more (mem_calls self.old) }
        ensures counted { Counts mem_meaning self.old self.new result }
        ensures numbered { NumbersCall false self.old self.new }
        ensures areas { mem_areas self.new ≡ mem_areas self.old }
        ensures story { mem_story self.new ≡ mem_story self.old }
    {
        let (_call, fails) = self.next_call();
        if fails {
            self.faults = raised(self.faults);
            return Err(DiskFailed);
        }
        Ok(())
    }

    // Counts a fault where a call failed.
    fn answered(&mut self, done: Result<(), DiskFailed>) -> Result<(), DiskFailed>
        ensures done { result ≡ done }
        ensures kept { mem_faults self.old ≤ mem_faults self.new }
        ensures failed { OnErr result (mem_faults self.new ≡ next_count (mem_faults self.old)) }
        ensures ok { OnOk result (mem_faults self.new ≡ mem_faults self.old) }
        ensures starved { mem_starved self.new ≡ mem_starved self.old }
        ensures calls { mem_calls self.new ≡ mem_calls self.old }
        ensures areas { mem_areas self.new ≡ mem_areas self.old }
        ensures log { mem_log self.new ≡ mem_log self.old }
        ensures story { mem_story self.new ≡ mem_story self.old }
    {
        if done.is_err() {
            self.faults = raised(self.faults);
        }
        done
    }
}

#[tactic(auto, using(crate::proofs::Told::reads_told, crate::proofs::Numbers::numbers))]
impl Disk for MemDisk {
    ghost use Rattle.std.specs.Prelude.{◌<◌, ◌⊎◌, true};
    ghost use Rattle.store_disk.specs.Stop.{NumbersCall};
    ghost use Rattle.store_disk.specs.Disk.{Reads, octets_of};
    ghost use Rattle.store_disk.specs.MemDisk.{HasCause, mem_areas, mem_calls, mem_meaning, mem_starved, mem_story};
    ghost use Rattle.kn_base.specs.Count.{Rose};
    ghost use Rattle.store_disk.specs.Story.{Cuts, FailsToCut, FailsToWrite, Syncs, Writes, reads};

    ghost meaning = { mem_meaning };

    fn size(&mut self, area: Area) -> Result<u64, DiskFailed>
        ensures counted { Counts mem_meaning self.old self.new result }
        ensures kept { mem_story self.new ≡ mem_story self.old }
        ensures size { IfOk result (λ size. size ≡ length (octets_of (reads (mem_story self.old)) area)) }
        ensures areas { mem_areas self.new ≡ mem_areas self.old }
        ensures fails { IsErr result ↔ IsFailing (mem_calls self.old) }
        ensures calls { mem_calls self.new ≡ one_more (mem_calls self.old) }
        ensures numbered { NumbersCall false self.old self.new }
    {
        self.begin()?;
        Ok(self.area(area).len() as u64)
    }

    fn read(&mut self, area: Area, at: u64, into: &mut [u8]) -> Result<(), DiskFailed>
        requires { IsWithin (reads (mem_story self.old)) area (at + length into.old) }
        ensures counted { Counts mem_meaning self.old self.new result }
        ensures kept { mem_story self.new ≡ mem_story self.old }
        ensures read { OnOk result (Reads (reads (mem_story self.old)) area at into.new) }
        ensures areas { mem_areas self.new ≡ mem_areas self.old }
        ensures fails { IsErr result ↔ IsFailing (mem_calls self.old) }
        ensures calls { mem_calls self.new ≡ one_more (mem_calls self.old) }
        ensures numbered { NumbersCall false self.old self.new }
    {
        self.begin()?;
        self.copy_out(area, at as usize, into);
        Ok(())
    }

    /// A write whose number is failing or whose end passes `LAST_END` fails. After a fault the area holds what it held.
    fn write_at(&mut self, area: Area, at: u64, bytes: &[u8]) -> Result<(), DiskFailed>
        requires some { 0 < length bytes.now }
        requires inside { IsWithin (reads (mem_story self.old)) area at }
        ensures counted { Counts mem_meaning self.old self.new result }
        ensures written { Writes area at bytes.now result (mem_story self.old) (mem_story self.new) }
        ensures end { OnOk result (at + length bytes.now ≤ last_end) }
        ensures told { OnErr result (FailsToWrite area at bytes.now (mem_story self.old) (mem_story self.new) ⊎ Rose (mem_starved self.old) (mem_starved self.new)) }
        ensures unwritten { OnErr result (mem_areas self.new ≡ mem_areas self.old) }
        ensures due { OnOk result (¬ IsFailing (mem_calls self.old)) }
        ensures cause { OnErr result ((last_end < at + length bytes.now) ⊎ HasCause self.old self.new) }
        ensures calls { mem_calls self.new ≡ one_more (mem_calls self.old) }
        ensures numbered { NumbersCall false self.old self.new }
    {
        let (call, is_failing) = self.next_call();
        let fails = is_failing || ends_late(at, bytes.len() as u64);
        let done = self.write(call, area, at as usize, bytes, fails);
        self.answered(done)
    }

    /// A cut whose number is failing fails. After a fault the area holds what it held.
    fn cut(&mut self, area: Area, size: u64) -> Result<(), DiskFailed>
        requires { IsWithin (reads (mem_story self.old)) area size }
        ensures counted { Counts mem_meaning self.old self.new result }
        ensures cut { Cuts area size result (mem_story self.old) (mem_story self.new) }
        ensures told { OnErr result (FailsToCut area size (mem_story self.old) (mem_story self.new) ⊎ Rose (mem_starved self.old) (mem_starved self.new)) }
        ensures uncut { OnErr result (mem_areas self.new ≡ mem_areas self.old) }
        ensures due { OnOk result (¬ IsFailing (mem_calls self.old)) }
        ensures cause { OnErr result (HasCause self.old self.new) }
        ensures calls { mem_calls self.new ≡ one_more (mem_calls self.old) }
        ensures numbered { NumbersCall false self.old self.new }
    {
        let (call, fails) = self.next_call();
        let done = self.shorten(call, area, size as usize, fails);
        self.answered(done)
    }

    fn sync(&mut self, area: Area) -> Result<(), DiskFailed>
        ensures counted { Counts mem_meaning self.old self.new result }
        ensures synced { Syncs area result (mem_story self.old) (mem_story self.new) }
        ensures areas { mem_areas self.new ≡ mem_areas self.old }
        ensures due { OnOk result (¬ IsFailing (mem_calls self.old)) }
        ensures cause { OnErr result (HasCause self.old self.new) }
        ensures calls { mem_calls self.new ≡ one_more (mem_calls self.old) }
        ensures numbered { NumbersCall true self.old self.new }
    {
        let (call, fails) = self.next_call();
        let done = self.settle(call, area, fails);
        self.answered(done)
    }
}
