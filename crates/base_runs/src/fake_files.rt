//! A file system of a script, which notes what is asked of it, in order, and the disk of files over it.

ghost use Rattle.std.specs.Prelude.{◌≤◌, IfOk};

use crate::disks::write_and_read;
use kn_base::{Memory, Octets};
use line_cases::{put_named, put_text};
use std::alloc::{Allocator, Global};
use std::cell::{Cell, RefCell};
use std::fs::{Files, Metadata, OpenFile, OpenOptions};
use std::io::{self, ErrorKind, Read, Seek, SeekFrom, Write};
use store_disk::{Area, Disk, HostDisk, Lock};

/// How many octets each file has.
const SIZE: u64 = 10;

/// What was asked, call by call. The call of one number fails, and that of another, where it reads or writes, does so with one octet.
#[derive(Drop)]
pub struct Notes {
    made: Cell<u64>,
    failing: u64,
    short: u64,
    text: RefCell<Octets>,
}

/// The error of each fault.
fn fault() -> io::Error {
    io::Error::from(ErrorKind::Other)
}

impl Notes {
    /// No call was made.
    fn new(alloc: Global, failing: u64, short: u64) -> Notes {
        Notes {
            made: Cell::new(0),
            failing,
            short,
            text: RefCell::new(Octets::new(alloc)),
        }
    }

    /// Notes a number.
    fn note_number(&self, place: u64) {
        if let Ok(mut text) = self.text.try_borrow_mut() {
            let _ = put_named(&mut text, b" ", place);
        }
    }

    /// Notes some octets.
    fn note(&self, octets: &[u8]) {
        if let Ok(mut text) = self.text.try_borrow_mut() {
            let _ = put_text(&mut text, octets);
        }
    }

    /// Notes a call, and counts it. How many of so many octets it takes.
    fn call(&self, what: &[u8], file: u8, octets: usize) -> io::Result<usize>
        ensures within { IfOk result (λ count. count ≤ octets) }
    {
        self.note(b", ");
        self.note(what);
        self.note(&[file]);
        let number = self.made.get();
        self.made.set(number.saturating_add(1));
        if number == self.failing {
            return Err(fault());
        }
        Ok(if number == self.short {
            octets.min(1)
        } else {
            octets
        })
    }
}

/// Files of which each holds ten octets.
#[derive(Clone, Copy)]
pub struct FakeFiles<'a> {
    notes: &'a Notes,
}

/// One of them: the last octet of its name, and the place in it.
#[derive(Drop)]
pub struct FakeFile<'a> {
    notes: &'a Notes,
    name: u8,
    place: u64,
}

impl<'a> Read for FakeFile<'a> {
    fn read(&mut self, buf: &mut [u8]) -> io::Result<usize> {
        let count = self.notes.call(b"read ", self.name, buf.len())?;
        self.notes.note_number(buf.len() as u64);
        for octet in &mut buf[..count] {
            *octet = b'0' + (self.place % 10) as u8;
            self.place = self.place.wrapping_add(1);
        }
        Ok(count)
    }
}

impl<'a> Write for FakeFile<'a> {
    fn write(&mut self, bytes: &[u8]) -> io::Result<usize> {
        let count = self.notes.call(b"write ", self.name, bytes.len())?;
        self.notes.note(b" ");
        self.notes.note(bytes);
        Ok(count)
    }

    fn flush(&mut self) -> io::Result<()> {
        Ok(())
    }
}

impl<'a> Seek for FakeFile<'a> {
    fn seek(&mut self, to: SeekFrom) -> io::Result<u64> {
        self.place = match to {
            SeekFrom::Start(at) => at,
            _ => SIZE,
        };
        self.notes.call(b"seek ", self.name, 0)?;
        self.notes.note_number(self.place);
        Ok(self.place)
    }
}

impl<'a> OpenFile for FakeFile<'a> {
    fn metadata(&self) -> io::Result<Metadata> {
        Err(fault())
    }

    fn set_len(&self, size: u64) -> io::Result<()> {
        self.notes.call(b"cut ", self.name, 0)?;
        self.notes.note_number(size);
        Ok(())
    }

    fn sync_all(&self) -> io::Result<()> {
        self.notes.call(b"sync ", self.name, 0)?;
        Ok(())
    }

    fn sync_data(&self) -> io::Result<()> {
        Err(fault())
    }
}

impl<'a> Lock for FakeFile<'a> {
    fn lock_alone(&self) -> io::Result<()> {
        self.notes.call(b"lock ", self.name, 0)?;
        Ok(())
    }
}

/// A folder that can't be read.
#[derive(Drop)]
pub struct NoNames;

impl Read for NoNames {
    fn read(&mut self, _buf: &mut [u8]) -> io::Result<usize> {
        Err(fault())
    }
}

impl<'a> Files for FakeFiles<'a> {
    type File = FakeFile<'a>;

    type Dir = NoNames;

    fn open_file(&self, how: &OpenOptions, path: &str) -> io::Result<FakeFile<'a>> {
        let name = path.as_bytes().last().copied().unwrap_or(b' ');
        self.notes.call(b"open ", name, 0)?;
        self.notes
            .note(if how.asks_write() { b" w" } else { b" r" });
        self.notes.note(if how.asks_create() { b"c" } else { b"" });
        self.notes.note(if how.asks_truncate() || how.asks_append() {
            b"!"
        } else {
            b""
        });
        Ok(FakeFile {
            notes: self.notes,
            name,
            place: 0,
        })
    }

    fn open_dir(&self, _path: &str) -> io::Result<NoNames> {
        Err(fault())
    }

    fn metadata(&self, _path: &str) -> io::Result<Metadata> {
        Err(fault())
    }

    fn symlink_metadata(&self, _path: &str) -> io::Result<Metadata> {
        Err(fault())
    }

    fn copy(&self, _from: &str, _to: &str) -> io::Result<u64> {
        Err(fault())
    }

    fn rename(&self, _from: &str, _to: &str) -> io::Result<()> {
        Err(fault())
    }

    fn remove_file(&self, _path: &str) -> io::Result<()> {
        Err(fault())
    }

    fn create_dir(&self, _path: &str) -> io::Result<()> {
        Err(fault())
    }

    fn remove_dir(&self, _path: &str) -> io::Result<()> {
        Err(fault())
    }

    fn remove_dir_all<B: Allocator>(&self, _alloc: B, _path: &str) -> io::Result<()> {
        Err(fault())
    }
}

/// What the acts of `plain` and a sync of Pick read on a disk over such files, and how many calls they made.
fn read_over(alloc: Global, notes: &Notes) -> Result<(Option<[u8; 4]>, u64), Memory> {
    let mut octets = [b'-'; 4];
    let mut disk = HostDisk::new(alloc, FakeFiles { notes }, b"n")?;
    let done = write_and_read(&mut disk, &mut octets).is_ok() && disk.sync(Area::Pick).is_ok();
    Ok((if done { Some(octets) } else { None }, notes.made.get()))
}

/// The same with the call of one number failing, and that of another short.
fn read_with(alloc: Global, failing: u64, short: u64) -> Result<(Option<[u8; 4]>, u64), Memory> {
    read_over(alloc, &Notes::new(alloc, failing, short))
}

/// Puts last how many of the calls make an act fail where they fail, and how many go on where they are short, and read the same.
fn put_each(
    alloc: Global,
    good: (Option<[u8; 4]>, u64),
    report: &mut Octets,
) -> Result<(), Memory> {
    let (mut failed, mut on, mut same) = (0u64, 0u64, 0u64);
    for call in 0..good.1 {
        let failing = read_with(alloc, call, u64::MAX)?;
        let short = read_with(alloc, u64::MAX, call)?;
        failed = failed.saturating_add(u64::from(failing.0.is_none()));
        on = on.saturating_add(u64::from(short.1 > good.1));
        same = same.saturating_add(u64::from(short.0 == good.0));
    }
    put_named(report, b" | calls ", good.1)?;
    put_named(report, b", failing ", failed)?;
    put_named(report, b", short ", on)?;
    put_named(report, b", the same ", same)
}

/// `fake files`: the acts of `plain` and a sync of Pick on a disk over files of a script, what they asked of these, and what they come to
/// where each call fails, and where each is short.
pub fn put_fake_files(alloc: Global, report: &mut Octets) -> Result<(), Memory> {
    let notes = Notes::new(alloc, u64::MAX, u64::MAX);
    let good = read_over(alloc, &notes)?;
    match &good.0 {
        Some(octets) => report.extend_from_slice(octets)?,
        None => report.extend_from_slice(b"disk")?,
    }
    if let Ok(text) = notes.text.try_borrow() {
        report.extend_from_slice(text.as_slice())?;
    }
    put_each(alloc, good, report)
}
