//! A house in memory, whose contents stand beforehand.

ghost use Rattle.std.specs.Prelude.{◌≡◌, true, Some, drop, IfOk, OnOk, OnErr};
ghost use Rattle.boxes_main.specs.Disks.{disk_under, without, areas_in, failing_in};
ghost use Rattle.boxes_main.specs.House.{MakesOne, IsNewDisk, IsNewClock, IsNewDialer, IsToldWord};
ghost use Rattle.store_disk.specs.MemDisk.{mem_calls, mem_faults, mem_story};
ghost use Rattle.store_disk.specs.Story.{untold};

use crate::House;
use kn_base::{MemClock, MemPeer, MemShelf, Memory, Octets, raised};
use peer_dialer::{Counted, MemDialer};
use std::alloc::Global;
use store_disk::MemDisk;

/// A house that hands out what its lists hold, as new: clocks and dialers in their order, and disks by their names, of two under
/// one name the first. Where a list is used up it hands out one without contents.
#[derive(Drop)]
pub struct MemHouse<P: Counted + Drop> {
    alloc: Global,
    visitor: MemPeer,
    shelf: MemShelf,
    output: MemPeer,
    errors: MemPeer,
    word: u64,
    clocks: Vec<MemClock>,
    dialers: Vec<MemDialer<P>>,
    disks: Vec<(Octets, MemDisk)>,
    made: u64,
}

impl<P: Counted + Drop> MemHouse<P> {
    ghost use Rattle.boxes_main.specs.MemHouse.{mem_rooms, mem_stock, clocks_of, dialers_of, disks_of};

    /// A house that handed out nothing yet. It takes no memory.
    pub fn new(
        alloc: Global,
        visitor: MemPeer,
        shelf: MemShelf,
        output: MemPeer,
        errors: MemPeer,
        word: u64,
        clocks: Vec<MemClock>,
        dialers: Vec<MemDialer<P>>,
        disks: Vec<(Octets, MemDisk)>,
    ) -> MemHouse<P>
        ensures rooms { mem_rooms result ≡ record { visitor = visitor; shelf = shelf; output = output; errors = errors } }
        ensures stock { mem_stock result ≡ record { disks = λ name. untold (areas_in (disk_under name disks.items)); word = Some word; made = 0 } }
        ensures clocks { clocks_of result ≡ clocks.items }
        ensures dialers { dialers_of result ≡ dialers.items }
        ensures disks { disks_of result ≡ disks.items }
    {
        MemHouse {
            alloc,
            visitor,
            shelf,
            output,
            errors,
            word,
            clocks,
            dialers,
            disks,
            made: 0,
        }
    }

    /// Gives the visitor and the sinks for output and errors back.
    pub fn into_peers(self) -> (MemPeer, MemPeer, MemPeer)
        ensures { result ≡ ((mem_rooms self).visitor, (mem_rooms self).output, (mem_rooms self).errors) }
    {
        (self.visitor, self.output, self.errors)
    }
}

/// Takes the first disk under a name out of a list.
fn take_under(disks: &mut Vec<(Octets, MemDisk)>, name: &[u8]) -> Option<MemDisk>
    ensures taken { result ≡ disk_under name.now disks.old.items }
    ensures left { disks.new.items ≡ without name.now disks.old.items }
{
    for at in 0..disks.len() {
        if name == disks[at].0.as_slice() {
            let (_, disk) = disks.remove(at);
            return Some(disk);
        }
    }
    None
}

/// The disk as one that has made no call, and one that holds nothing where there is none.
fn new_disk(alloc: Global, disk: Option<MemDisk>) -> MemDisk
    ensures story { mem_story result ≡ untold (areas_in disk) }
    ensures calls { mem_calls result ≡ record { failing = failing_in disk; made = 0 } }
    ensures faults { mem_faults result ≡ 0 }
{
    match disk {
        Some(disk) => disk.anew(),
        None => MemDisk::new(
            alloc,
            Octets::new(alloc),
            Octets::new(alloc),
            Octets::new(alloc),
            Vec::new(alloc),
        ),
    }
}

impl<P: Counted + Drop> House for MemHouse<P> {
    type V = MemPeer;

    type D = MemDisk;

    type C = MemClock;

    type Di = MemDialer<P>;

    type S = MemShelf;

    type Ou = MemPeer;

    type Er = MemPeer;

    ghost use Rattle.std.specs.Prelude.{refl};
    ghost use Rattle.kn_base.specs.MemClock.{answers_of, readings_of, latest_of};
    ghost use Rattle.peer_dialer.specs.MemDialer.{mem_dealings, peers_of, dials_of};
    ghost use Rattle.boxes_main.specs.MemHouse.{mem_rooms, mem_stock, clocks_of, dialers_of, disks_of, next_answers, next_peers, next_failing};

    ghost rooms = { mem_rooms };

    ghost with_rooms = { λ h r. record h { visitor = r.visitor; shelf = r.shelf; output = r.output; errors = r.errors } };

    ghost stock = { mem_stock };

    ghost rooms_with = { λ h r. refl };

    ghost stock_with = { λ h r. refl };

    fn visitor(&mut self) -> &mut MemPeer {
        &mut self.visitor
    }

    fn shelf(&mut self) -> &mut MemShelf {
        &mut self.shelf
    }

    fn output(&mut self) -> &mut MemPeer {
        &mut self.output
    }

    fn errors(&mut self) -> &mut MemPeer {
        &mut self.errors
    }

    /// The first disk under the name, with its failing calls. It never fails.
    fn disk(&mut self, _alloc: Global, name: &[u8]) -> Result<MemDisk, Memory>
        ensures rooms { mem_rooms self.new ≡ mem_rooms self.old }
        ensures disk { IfOk result (λ disk. IsNewDisk true (mem_story disk) (mem_calls disk).made (mem_faults disk) ((mem_stock self.old).disks name.now)) }
        ensures made { OnOk result (MakesOne (mem_stock self.old) (mem_stock self.new)) }
        ensures none { OnErr result (mem_stock self.new ≡ mem_stock self.old) }
        ensures failing { IfOk result (λ disk. (mem_calls disk).failing ≡ failing_in (disk_under name.now (disks_of self.old))) }
        ensures left { disks_of self.new ≡ without name.now (disks_of self.old) }
        ensures clocks { clocks_of self.new ≡ clocks_of self.old }
        ensures dialers { dialers_of self.new ≡ dialers_of self.old }
    {
        self.made = raised(self.made);
        Ok(new_disk(self.alloc, take_under(&mut self.disks, name)))
    }

    /// The first clock of the list, and one without answers where it is used up.
    fn clock(&mut self) -> MemClock
        ensures rooms { mem_rooms self.new ≡ mem_rooms self.old }
        ensures stock { mem_stock self.new ≡ mem_stock self.old }
        ensures clock { IsNewClock (readings_of result) (latest_of result) }
        ensures first { answers_of result ≡ next_answers (clocks_of self.old) }
        ensures left { clocks_of self.new ≡ drop 1 (clocks_of self.old) }
        ensures dialers { dialers_of self.new ≡ dialers_of self.old }
        ensures disks { disks_of self.new ≡ disks_of self.old }
    {
        if self.clocks.is_empty() {
            MemClock::new(self.alloc, Vec::new(self.alloc))
        } else {
            self.clocks.remove(0).anew()
        }
    }

    /// The first dialer of the list, with its peers and its failing dials, and one without peers where it is used up.
    fn dialer(&mut self) -> MemDialer<P>
        ensures rooms { mem_rooms self.new ≡ mem_rooms self.old }
        ensures stock { mem_stock self.new ≡ mem_stock self.old }
        ensures dialer { IsNewDialer (mem_dealings result) }
        ensures first { peers_of result ≡ next_peers (dialers_of self.old) }
        ensures failing { dials_of result ≡ record { failing = next_failing (dialers_of self.old); made = 0 } }
        ensures left { dialers_of self.new ≡ drop 1 (dialers_of self.old) }
        ensures clocks { clocks_of self.new ≡ clocks_of self.old }
        ensures disks { disks_of self.new ≡ disks_of self.old }
    {
        if self.dialers.is_empty() {
            MemDialer::new(self.alloc, Vec::new(self.alloc), Vec::new(self.alloc))
        } else {
            self.dialers.remove(0).anew()
        }
    }

    fn word(&mut self) -> u64
        ensures rooms { mem_rooms self.new ≡ mem_rooms self.old }
        ensures stock { mem_stock self.new ≡ mem_stock self.old }
        ensures same { self.new ≡ self.old }
        ensures word { IsToldWord (mem_stock self.old).word result }
    {
        self.word
    }
}
