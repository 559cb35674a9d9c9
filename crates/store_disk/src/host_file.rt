//! One area of a disk as a file of the machine.

use kn_base::{Memory, Octets};
use std::alloc::Global;
use std::fs::{File, Files, OpenFile, OpenOptions};
use std::io::{self, Read, Seek, SeekFrom, Write};
use std::os::unix::fs::OpenOptionsExt;
use std::path::Path;

/// The mode of a file that is made: its owner may read and write it, since messages are nobody else's.
const PRIVATE: u32 = 0o600;

/// A file that can be locked, so that nobody else holds it.
pub trait Lock {
    /// Locks the file. An error where somebody else holds it.
    fn lock_alone(&self) -> io::Result<()>;
}

impl Lock for File {
    fn lock_alone(&self) -> io::Result<()> {
        self.try_lock()?;
        Ok(())
    }
}

/// A file by its name, open from the first call on, and whether its folder was synced since then.
#[derive(Drop)]
pub struct HostFile<F> {
    name: Octets,
    file: Option<F>,
    is_named: bool,
}

/// Opens a file, which is made where it is missing, and locks it.
fn open_locked<F: Lock + Drop, R: Files<File = F>>(rt: &R, path: &str) -> io::Result<F> {
    let file = OpenOptions::new()
        .read(true)
        .write(true)
        .create(true)
        .mode(PRIVATE)
        .open(rt, path)?;
    file.lock_alone()?;
    Ok(file)
}

/// The folder that names the file of a path.
fn folder_of(path: &str) -> &str {
    match Path::new(path).parent().and_then(|folder| folder.to_str()) {
        Some(folder) if !folder.is_empty() => folder,
        _ => ".",
    }
}

impl<F: Read + Write + Seek + OpenFile + Lock + Drop> HostFile<F> {
    /// The file of a name and an ending, which isn't opened.
    pub fn new(alloc: Global, name: &[u8], ending: &[u8]) -> Result<HostFile<F>, Memory> {
        let mut whole = Octets::from_slice(alloc, name)?;
        whole.extend_from_slice(ending)?;
        Ok(HostFile {
            name: whole,
            file: None,
            is_named: false,
        })
    }

    // The path of the file, where its name is UTF-8.
    fn path(&self) -> io::Result<&str> {
        match str::from_utf8(self.name.as_slice()) {
            Ok(path) => Ok(path),
            Err(_) => Err(io::ErrorKind::InvalidInput.into()),
        }
    }

    // The file, which the first call opens.
    fn opened<R: Files<File = F>>(&mut self, rt: &R) -> io::Result<&mut F> {
        if self.file.is_none() {
            self.file = Some(open_locked(rt, self.path()?)?);
        }
        match &mut self.file {
            Some(file) => Ok(file),
            None => Err(io::ErrorKind::NotFound.into()),
        }
    }

    // Syncs the folder that names the file.
    fn sync_folder<R: Files<File = F>>(&self, rt: &R) -> io::Result<()> {
        let folder = folder_of(self.path()?);
        OpenOptions::new().read(true).open(rt, folder)?.sync_all()
    }

    /// The number of octets in the file.
    pub fn size<R: Files<File = F>>(&mut self, rt: &R) -> io::Result<u64> {
        self.opened(rt)?.seek(SeekFrom::End(0))
    }

    /// Fills `into` with the octets from `at` on.
    pub fn read<R: Files<File = F>>(&mut self, rt: &R, at: u64, into: &mut [u8]) -> io::Result<()> {
        let file = self.opened(rt)?;
        file.seek(SeekFrom::Start(at))?;
        file.read_exact(into)
    }

    /// Writes octets over those from `at` on.
    pub fn write<R: Files<File = F>>(&mut self, rt: &R, at: u64, bytes: &[u8]) -> io::Result<()> {
        let file = self.opened(rt)?;
        file.seek(SeekFrom::Start(at))?;
        file.write_all(bytes)
    }

    /// Cuts the file to a size in octets.
    pub fn cut<R: Files<File = F>>(&mut self, rt: &R, size: u64) -> io::Result<()> {
        self.opened(rt)?.set_len(size)
    }

    /// Puts what was written where a stop leaves it, and the first time the name of the file too.
    pub fn sync<R: Files<File = F>>(&mut self, rt: &R) -> io::Result<()> {
        self.opened(rt)?.sync_all()?;
        if !self.is_named {
            self.sync_folder(rt)?;
            self.is_named = true;
        }
        Ok(())
    }
}
