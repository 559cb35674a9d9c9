//! The store that keeps messages: entries in a journal, and the gate that they make.

ghost use Rattle.std.specs.Prelude.{◌≡◌, ◌<◌, ◌≤◌, ◌+◌, ◌^◌, ◌++◌, ◌∷◌, [], List, ℕ, Some, None, IfOk, IfErr, OnOk, OnErr, length, map, option_copied};
ghost use Rattle.std.specs.Bool.{OnTrue};
ghost use Rattle.gate_entries.specs.Entry.{entry_octets};
ghost use Rattle.gate_entries.specs.declared.recorded.Recorded.{Recorded};
ghost use Rattle.gate_model.specs.Fates.{AddUp, HaveFates};
ghost use Rattle.gate_model.specs.Fold.{recorded};
ghost use Rattle.gate_model.specs.Due.{HaveReports};
ghost use Rattle.gate_model.specs.Gate.{entry_of as prepared, birth_of, HasRoom, KeepsAll};
ghost use Rattle.gate_model.specs.Lawful.{refusal, most_entries, MayPass};
ghost use Rattle.gate_model.specs.State.{totals_of};
ghost use Rattle.store_disk.specs.Disk.{Areas};
ghost use Rattle.store_disk.specs.Story.{IsImage};
ghost use Rattle.store_journal.specs.Journal.{OpensOver, reserved};
ghost use Rattle.gate_store.specs.Deeds.{Performs, Passes, repair_calls};
ghost use Rattle.gate_store.specs.Entries.{start, state_of};
ghost use Rattle.gate_store.specs.Reopening.{MayReopen, MayStandFor};
ghost use Rattle.gate_store.specs.Store.{IsStore, IsOpen, MayHoldLeft, IsOpened, GivesBack, disk_in, birth_in, rules_in, state_in, unsure_in};
ghost use Rattle.gate_store.specs.StoreSteps.{MayRecord, Reserves, Settles, Commits};

mod entries;
mod taking;

use crate::StoreFault;
use entries::load;
use gate_entries::{Accept, Passing, Recorded, write_entry};
use gate_model::{Acceptor, Gate, Ready, Refusal, Reply, Totals};
use kn_base::{Items, Memory, Octets};
use route_rules::Rules;
use sms_record::Sms;
use std::alloc::Global;
use store_disk::{Disk, DiskFailed};
use store_journal::Journal;

/// Messages on a disk, and what became of them.
pub struct Store<D: Disk> {
    alloc: Global,
    journal: Journal<D>,
    /// What the entries of the journal make, with what passes.
    gate: Gate,
    /// The entry that was refused because the disk failed, where it may stand all the same.
    unsure: Option<Recorded>,
}

impl<D: Disk> Store<D> {
    /// Opens the store on a disk, and where the disk holds none yet, makes it with that birth. `rules` say which links carry a message, and
    /// how many messages may wait in it.
    ///
    /// `Foreign` exactly where what the disk holds is no store, with the first place that doesn't fit; `Disk` only where a disk call failed,
    /// `Memory` where there was none. Each fault gives the disk back; nothing that was stored is lost. A stop on the way leaves what was stored, or
    /// a store that was born with this birth.
    pub fn open(
        alloc: Global,
        disk: D,
        rules: Rules,
        birth: u64,
    ) -> Result<Store<D>, (D, StoreFault)>
        requires few_links { length rules.links < 2 ^ 32 }
        ensures ok { IfOk result (IsOpened D.meaning disk rules birth) }
        ensures err { IfErr result (λ fault. GivesBack D.meaning disk rules fault.0 fault.1) }
        ensures births { IfOk result (λ store. OnTrue D.meaning.tells (OpensOver birth (D.meaning.story disk) (D.meaning.story (disk_in store)))) }
        ensures births_back { IfErr result (λ fault. OnTrue D.meaning.tells (OpensOver birth (D.meaning.story disk) (D.meaning.story fault.0))) }
    {
        match Journal::open(alloc, disk, birth) {
            Ok(journal) => load(alloc, rules, journal),
            Err((disk, fault)) => Err((disk, fault.into())),
        }
    }

    /// The birth of the store: the number that it was born with.
    pub fn birth(&self) -> u64
        ensures { result ≡ birth_in self.now }
    {
        self.journal.birth()
    }

    /// The rules of its links.
    pub fn rules(&self) -> &Rules
        ensures { result.now ≡ rules_in self.now }
    {
        self.gate.rules()
    }

    /// What it holds, with what passes.
    pub fn state(&self) -> &Gate
        ensures { result.now ≡ self.now.gate }
    {
        &self.gate
    }

    /// The entry that was refused because the disk failed, where it may stand all the same. The next one that is recorded is recorded
    /// without it.
    pub fn unsure(&self) -> Option<&Recorded>
        ensures { option_copied result ≡ unsure_in self.now }
    {
        self.unsure.as_ref()
    }

    /// What it counts: of its entries, and of their messages. Each message that was accepted was acknowledged, rejected with a cause, or is
    /// stored, exactly one of these, and is stored exactly where it waits. Of any front of the entries and those behind it, the reports that are
    /// awaited are those that were awaited behind the front and that the others left open; and the jobs that are held are those that were held
    /// there, and the URLs that are due by the others under the next numbers, but those of which one says that they are done with.
    pub fn totals(&self) -> Totals
        ensures totals { result ≡ totals_of (state_in self.now) }
        ensures fates { (birth : ℕ) (entries : List Recorded) → IsStore D.meaning self.now birth entries
            → HaveFates birth (start (rules_in self.now)) (map recorded entries) }
        ensures counted { (birth : ℕ) (entries : List Recorded) → IsStore D.meaning self.now birth entries
            → AddUp result }
        ensures reports { (birth : ℕ) (before later : List Recorded) → IsStore D.meaning self.now birth (before ++ later)
            → HaveReports birth (state_of birth (rules_in self.now) before) later (state_in self.now) }
    {
        self.gate.totals()
    }

    /// Records an entry on the disk, and does it. An entry that is unsure is taken back first.
    ///
    /// `NoRoute` and `Full` exactly where the model refuses it so, in this order; `Memory` where there was none; `Disk` only where a disk call
    /// failed. Only an entry that was done is kept, but that one refused with `Disk` may be unsure then. A refusal but `Disk` leaves the disk as it was; else
    /// there are four disk calls at most, and two more where an entry was unsure.
    pub fn perform(&mut self, entry: Recorded) -> Result<Reply, Refusal>
        requires kept { IsOpen D.meaning self.old }
        requires may { MayRecord self.old entry }
        ensures { Performs D.meaning self.old entry result self.new }
    {
        match self.gate.check(&entry) {
            Ok(()) => self.record(entry),
            Err(refusal) => Err(refusal),
        }
    }

    // Records an entry that isn't refused.
    fn record(&mut self, entry: Recorded) -> Result<Reply, Refusal>
        requires kept { IsOpen D.meaning self.old }
        requires may { MayRecord self.old entry }
        requires taken { refusal (rules_in self.old) (state_in self.old) entry ≡ None }
        ensures { Performs D.meaning self.old entry result self.new }
    {
        match self.gate.prepare(entry, self.journal.birth()) {
            Ok(ready) => self.commit(ready),
            Err((_, Memory)) => Err(Refusal::Memory),
        }
    }

    // Puts an entry last in the journal, and does it. All memory is taken before the first disk call.
    fn commit(&mut self, ready: Ready) -> Result<Reply, Refusal>
        requires kept { IsOpen D.meaning self.old }
        requires room { HasRoom self.old.gate ready }
        requires born { birth_of ready ≡ birth_in self.old }
        requires may { MayRecord self.old (prepared ready) }
        requires taken { refusal (rules_in self.old) (state_in self.old) (prepared ready) ≡ None }
        ensures { Performs D.meaning self.old (prepared ready) result self.new }
    {
        if let Err(Memory) = self.reserve(ready.entry()) {
            return Err(Refusal::Memory);
        }
        match self.repair_and_append(ready) {
            Ok(reply) => Ok(reply),
            Err(DiskFailed) => Err(Refusal::Disk),
        }
    }

    // Takes the memory for an entry in the journal.
    fn reserve(&mut self, entry: &Recorded) -> Result<(), Memory>
        requires kept { IsOpen D.meaning self.old }
        requires may { MayRecord self.old entry.now }
        ensures same { self.new ≡ record self.old { journal = self.new.journal } }
        ensures reserves { Reserves D.meaning self.old self.new }
        ensures ok { OnOk result (reserved self.new.journal ≡ entry_octets entry.now) }
    {
        let mut payload = Octets::new(self.alloc);
        write_entry(&mut payload, entry)?;
        self.journal.reserve(payload.as_slice())
    }

    // Takes back an entry that is unsure, for good.
    fn repair(&mut self) -> Result<(), DiskFailed>
        requires kept { IsOpen D.meaning self.old }
        ensures { Settles D.meaning self.old result self.new }
    {
        match self.journal.repair() {
            Ok(()) => {
                self.unsure = None;
                Ok(())
            }
            Err(failed) => Err(failed),
        }
    }

    // Appends an entry that is reserved, and does it, once what is unsure is taken back.
    fn repair_and_append(&mut self, ready: Ready) -> Result<Reply, DiskFailed>
        requires kept { IsOpen D.meaning self.old }
        requires reserved { reserved self.old.journal ≡ entry_octets (prepared ready) }
        requires room { HasRoom self.old.gate ready }
        requires born { birth_of ready ≡ birth_in self.old }
        requires may { MayRecord self.old (prepared ready) }
        requires few { (state_in self.old).entries < most_entries }
        ensures { Commits D.meaning (repair_calls (unsure_in self.old) + 4) self.old (prepared ready) result self.new }
    {
        match self.repair() {
            Ok(()) => self.append(ready),
            Err(failed) => Err(failed),
        }
    }

    // Appends an entry that is reserved, and does it. Nothing is unsure.
    fn append(&mut self, ready: Ready) -> Result<Reply, DiskFailed>
        requires kept { IsOpen D.meaning self.old }
        requires sure { unsure_in self.old ≡ None }
        requires reserved { reserved self.old.journal ≡ entry_octets (prepared ready) }
        requires room { HasRoom self.old.gate ready }
        requires born { birth_of ready ≡ birth_in self.old }
        requires may { MayRecord self.old (prepared ready) }
        requires few { (state_in self.old).entries < most_entries }
        ensures { Commits D.meaning 4 self.old (prepared ready) result self.new }
    {
        match self.journal.append() {
            Ok(()) => Ok(self.gate.apply(ready)),
            Err(failed) => {
                if self.journal.unsure() {
                    self.unsure = Some(ready.into_entry());
                }
                Err(failed)
            }
        }
    }

    /// Does an entry that isn't recorded. It takes no memory and makes no disk call.
    pub fn pass(&mut self, entry: Passing)
        requires kept { IsOpen D.meaning self.old }
        requires lawful { MayPass (rules_in self.old) (state_in self.old) entry }
        ensures { Passes D.meaning self.old entry self.new }
    {
        self.gate.pass(entry);
    }

    /// Ends the store and gives its disk back. Whatever a stop leaves of it from then on reopens to what is left of the state, or, where an
    /// entry is unsure, to what the state is with it: whoever opens it under the same rules has that.
    pub fn close(self) -> D
        ensures disk { result ≡ disk_in self }
        ensures stands { (birth : ℕ) (entries : List Recorded) → IsStore D.meaning self birth entries
            → OnTrue D.meaning.tells ((image : Areas) → IsImage (D.meaning.story result) image → MayStandFor birth entries (unsure_in self) image) }
        ensures stops { (birth : ℕ) (entries : List Recorded) → IsStore D.meaning self birth entries
            → OnTrue D.meaning.tells ((image : Areas) → IsImage (D.meaning.story result) image → MayReopen (birth_in self) (rules_in self) (state_in self) (unsure_in self) image) }
        ensures left { (birth : ℕ) (entries : List Recorded) → IsStore D.meaning self birth entries
            → OnTrue D.meaning.tells ((image : Areas) → IsImage (D.meaning.story result) image → MayHoldLeft D.meaning (birth_in self) (rules_in self) (state_in self) (unsure_in self) image) }
    {
        let Store {
            alloc: _,
            journal,
            gate: _,
            unsure: _,
        } = self;
        journal.close()
    }
}

impl<D: Disk> Acceptor for Store<D> {
    ghost use Rattle.std.specs.Prelude.{refl};
    ghost use Rattle.gate_store.specs.Store.{IsOpen, disk_in};
    ghost use Rattle.gate_store.specs.Deeds.{Leads, Leads-append};

    ghost faults = { λ store. D.meaning.faults (disk_in store) };

    ghost leads = { Leads D.meaning };

    ghost can_submit = { IsOpen D.meaning };

    ghost leads_nowhere = { λ store. refl };

    ghost leads_on = { Leads-append D.meaning };

    fn submit(&mut self, parts: Vec<Sms>, time: u64) -> Result<Reply, Refusal> {
        self.perform(Recorded::Accept(Accept {
            time,
            parts: Items::from_vec(parts),
        }))
    }
}
