//! The machine as a house. This is the trusted edge: what it hands out tells no content.

use crate::House;
use kn_base::{HostClock, HostErrors, HostPeer, HostShelf, Memory, raised};
use peer_dialer::HostDialer;
use std::alloc::Global;
use std::fs::{File, Files};
use std::net::Net;
use std::rt::Runtime;
use store_disk::HostDisk;

/// Standard input, output and error, the machine's clock and network, and the files of the folder that the program runs in. Its visitor and its
/// output say what they are given on the same standard output.
#[derive(Drop)]
pub struct HostHouse<R: Runtime + Files<File = File> + Net + Copy> {
    rt: R,
    visitor: HostPeer<R>,
    shelf: HostShelf<R>,
    output: HostPeer<R>,
    errors: HostErrors<R>,
    made: u64,
}

impl<R: Runtime + Files<File = File> + Net + Copy> HostHouse<R> {
    /// The house before its first call.
    pub fn new(rt: R) -> HostHouse<R> {
        HostHouse {
            rt,
            visitor: HostPeer::new(rt),
            shelf: HostShelf::new(rt),
            output: HostPeer::new(rt),
            errors: HostErrors::new(rt),
            made: 0,
        }
    }
}

impl<R: Runtime + Files<File = File> + Net + Copy> House for HostHouse<R> {
    type V = HostPeer<R>;

    type D = HostDisk<R>;

    type C = HostClock<R>;

    type Di = HostDialer<R>;

    type S = HostShelf<R>;

    type Ou = HostPeer<R>;

    type Er = HostErrors<R>;

    ghost use Rattle.std.specs.Prelude.{None, refl};
    ghost use Rattle.store_disk.specs.Disk.{no_areas};
    ghost use Rattle.store_disk.specs.Story.{untold};

    ghost rooms = { λ h. record { visitor = h.visitor; shelf = h.shelf; output = h.output; errors = h.errors } };

    ghost with_rooms = { λ h r. record h { visitor = r.visitor; shelf = r.shelf; output = r.output; errors = r.errors } };

    ghost stock = { λ h. record { disks = λ _. untold no_areas; word = None; made = h.made } };

    ghost rooms_with = { λ h r. refl };

    ghost stock_with = { λ h r. refl };

    fn visitor(&mut self) -> &mut HostPeer<R> {
        &mut self.visitor
    }

    fn shelf(&mut self) -> &mut HostShelf<R> {
        &mut self.shelf
    }

    fn output(&mut self) -> &mut HostPeer<R> {
        &mut self.output
    }

    fn errors(&mut self) -> &mut HostErrors<R> {
        &mut self.errors
    }

    fn disk(&mut self, alloc: Global, name: &[u8]) -> Result<HostDisk<R>, Memory> {
        let disk = HostDisk::new(alloc, self.rt, name)?;
        self.made = raised(self.made);
        Ok(disk)
    }

    fn clock(&mut self) -> HostClock<R> {
        HostClock::new(self.rt)
    }

    fn dialer(&mut self) -> HostDialer<R> {
        HostDialer::new(self.rt)
    }

    /// The nanoseconds since 1970, which no other store of this machine was born with.
    fn word(&mut self) -> u64 {
        match self.rt.since_1970() {
            Ok(since_1970) => since_1970
                .as_secs()
                .wrapping_mul(1_000_000_000)
                .wrapping_add(u64::from(since_1970.subsec_nanos())),
            Err(_) => 0,
        }
    }
}
