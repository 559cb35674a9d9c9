//! A disk of real files. It tells no story: what a file holds is no matter of a proof.

ghost use Rattle.std.specs.Prelude.{◌≡◌, IfOk, IsErr, MatchResult};
ghost use Rattle.store_disk.specs.Disk.{CountsCall};

use crate::disk::ends_late;
use crate::host_file::{HostFile, Lock};
use crate::{Area, Disk, DiskFailed};
use kn_base::{Memory, raised};
use std::alloc::Global;
use std::fs::{Files, OpenFile};
use std::io::{self, Read, Seek, Write};

// The files of the three areas.
#[derive(Drop)]
struct HostFiles<F> {
    a: HostFile<F>,
    b: HostFile<F>,
    pick: HostFile<F>,
}

impl<F: Read + Write + Seek + OpenFile + Lock + Drop> HostFiles<F> {
    // The files of the two areas of payloads.
    fn of_payloads(alloc: Global, name: &[u8]) -> Result<(HostFile<F>, HostFile<F>), Memory> {
        let a = HostFile::new(alloc, name, b".a")?;
        Ok((a, HostFile::new(alloc, name, b".b")?))
    }

    // The files of a name, none of which is opened.
    fn new(alloc: Global, name: &[u8]) -> Result<HostFiles<F>, Memory> {
        let (a, b) = HostFiles::of_payloads(alloc, name)?;
        Ok(HostFiles {
            a,
            b,
            pick: HostFile::new(alloc, name, b".pick")?,
        })
    }

    // The file of an area.
    fn of(&mut self, area: Area) -> &mut HostFile<F> {
        match area {
            Area::A => &mut self.a,
            Area::B => &mut self.b,
            Area::Pick => &mut self.pick,
        }
    }
}

/// The areas as the files NAME.a, NAME.b and NAME.pick, by a name that is a path. A file is opened, and
/// made where it is missing, by the first call on its area, and from then on locked: a call on a file that
/// another disk holds fails, since two of them would write over each other's entries. The first sync of an
/// area also syncs the folder that names its file, without which a file that was made in this run could be
/// gone after a power cut. Each error is counted.
/// Where files come from is given, so that a file system of a script can stand in.
#[derive(Drop)]
pub struct HostDisk<R: Files> {
    rt: R,
    files: HostFiles<R::File>,
    calls: u64,
    faults: u64,
}

impl<R: Files> HostDisk<R>
where
    R::File: Lock,
{
    /// The disk of a name. It opens no file. Where the name isn't UTF-8 each call fails.
    pub fn new(alloc: Global, rt: R, name: &[u8]) -> Result<HostDisk<R>, Memory>
    where
        R: Drop,
        ensures calls { IfOk result (λ disk. ⟦<HostDisk<R> as Disk>⟧.meaning.calls disk ≡ 0) }
        ensures faults { IfOk result (λ disk. ⟦<HostDisk<R> as Disk>⟧.meaning.faults disk ≡ 0) }
    {
        Ok(HostDisk {
            rt,
            files: HostFiles::new(alloc, name)?,
            calls: 0,
            faults: 0,
        })
    }

    // Counts a call, and its fault where it failed.
    fn count<T>(&mut self, done: io::Result<T>) -> Result<T, DiskFailed>
        ensures counted { CountsCall self.old.calls self.new.calls self.old.faults self.new.faults result }
        ensures value { MatchResult done (λ value. result ≡ Ok value) (λ _. IsErr result) }
    {
        self.calls = raised(self.calls);
        match done {
            Ok(value) => Ok(value),
            Err(_) => {
                self.faults = raised(self.faults);
                Err(DiskFailed)
            }
        }
    }
}

impl<R: Files> Disk for HostDisk<R>
where
    R::File: Lock,
{
    ghost use Rattle.store_disk.specs.Disk.{no_areas};
    ghost use Rattle.store_disk.specs.Story.{untold};
    ghost use Rattle.std.specs.Prelude.{false};

    ghost meaning = { record { tells = false; story = λ _. untold no_areas; faults = λ disk. disk.faults; calls = λ disk. disk.calls } };

    fn size(&mut self, area: Area) -> Result<u64, DiskFailed> {
        let done = self.files.of(area).size(&self.rt);
        self.count(done)
    }

    fn read(&mut self, area: Area, at: u64, into: &mut [u8]) -> Result<(), DiskFailed> {
        let done = self.files.of(area).read(&self.rt, at, into);
        self.count(done)
    }

    fn write_at(&mut self, area: Area, at: u64, bytes: &[u8]) -> Result<(), DiskFailed> {
        if ends_late(at, bytes.len() as u64) {
            return self.count(Err(io::ErrorKind::FileTooLarge.into()));
        }
        let done = self.files.of(area).write(&self.rt, at, bytes);
        self.count(done)
    }

    fn cut(&mut self, area: Area, size: u64) -> Result<(), DiskFailed> {
        let done = self.files.of(area).cut(&self.rt, size);
        self.count(done)
    }

    fn sync(&mut self, area: Area) -> Result<(), DiskFailed> {
        let done = self.files.of(area).sync(&self.rt);
        self.count(done)
    }
}
