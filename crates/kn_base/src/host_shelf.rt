//! The machine's files as a shelf. This is the trusted edge: it tells no content.

ghost use Rattle.std.specs.Prelude.{◌≡◌};

use crate::{Octets, Shelf, ShelfFault, raised};
use std::alloc::Global;
use std::fs::File;
use std::io::{ErrorKind, Read};
use std::rt::Files;

/// The files that stand where the program runs, by their paths.
#[derive(Drop)]
pub struct HostShelf<R: Files + Drop> {
    rt: R,
    calls: u64,
    faults: u64,
}

impl<R: Files + Drop> HostShelf<R> {
    /// The shelf before its first call.
    pub fn new(rt: R) -> HostShelf<R>
        ensures calls { ⟦<HostShelf<R> as Shelf>⟧.calls result ≡ 0 }
        ensures faults { ⟦<HostShelf<R> as Shelf>⟧.faults result ≡ 0 }
    {
        HostShelf {
            rt,
            calls: 0,
            faults: 0,
        }
    }
}

/// The whole text of a file, or why it can't be had.
fn read_file<R: Files>(rt: &R, alloc: Global, name: &[u8]) -> Result<Octets, ShelfFault> {
    let Ok(path) = str::from_utf8(name) else {
        return Err(ShelfFault::Failed);
    };
    let mut text = Vec::new(alloc);
    let read = match File::open(rt, path) {
        Ok(mut file) => file.read_to_end(&mut text),
        Err(error) => Err(error),
    };
    match read {
        Ok(_) => Ok(Octets::from_vec(text)),
        Err(error) if error.kind() == ErrorKind::OutOfMemory => Err(ShelfFault::Memory),
        Err(_) => Err(ShelfFault::Failed),
    }
}

impl<R: Files + Drop> Shelf for HostShelf<R> {
    ghost use Rattle.std.specs.Prelude.{None};

    ghost files = { λ _. None };

    ghost asked = { λ _. None };

    ghost calls = { λ s. s.calls };

    ghost faults = { λ s. s.faults };

    fn file(&mut self, alloc: Global, name: &[u8]) -> Result<Octets, ShelfFault> {
        self.calls = raised(self.calls);
        let read = read_file(&self.rt, alloc, name);
        if let Err(ShelfFault::Failed) = read {
            self.faults = raised(self.faults);
        }
        read
    }
}
