//! Files of the folder that the program runs in: what cases need there, and what they left.

use kn_base::{Memory, Octets};
use line_cases::{cut_at, octets_of, put_named, put_text};
use std::alloc::Global;
use std::fs::{self, File, Files};
use std::os::unix::fs::{PermissionsExt, symlink};

/// Makes a folder. Whether it was made.
fn make_folder<R: Files<File = File>>(rt: &R, path: &str) -> bool {
    fs::create_dir(rt, path).is_ok()
}

/// Removes a folder with all that is in it. Whether it was removed.
fn remove_folder<R: Files<File = File> + Alloc>(rt: &R, path: &str) -> bool {
    fs::remove_dir_all(rt, path).is_ok()
}

/// Makes a link. Whether it was made.
fn make_link<R: Files<File = File>>(rt: &R, path: &str, target: &str) -> bool {
    symlink(rt, target, path).is_ok()
}

/// Makes a file. Whether it was made.
fn write_file<R: Files<File = File>>(rt: &R, path: &str, content: &[u8]) -> bool {
    fs::write(rt, path, content).is_ok()
}

/// Puts last what a file holds.
fn put_content<R: Files<File = File> + Alloc>(
    rt: &R,
    path: &str,
    report: &mut Octets,
) -> Result<(), Memory> {
    match fs::read(rt, path) {
        Ok(content) => put_text(report, &content),
        Err(_) => report.extend_from_slice(b"failed"),
    }
}

/// The mode of a file, without its kind.
fn mode_of<R: Files<File = File>>(rt: &R, path: &str) -> Option<u32> {
    match fs::metadata(rt, path) {
        Ok(found) => Some(found.permissions().mode() & 0o777),
        Err(_) => None,
    }
}

/// Puts last whether a file is its owner's alone to read and write, or else its mode.
fn put_mode(report: &mut Octets, mode: Option<u32>) -> Result<(), Memory> {
    match mode {
        Some(0o600) => report.extend_from_slice(b"private"),
        Some(mode) => put_named(report, b"mode ", u64::from(mode)),
        None => report.extend_from_slice(b"failed"),
    }
}

/// Puts last whether something was done.
fn put_done(report: &mut Octets, done: bool) -> Result<(), Memory> {
    report.extend_from_slice(if done { b"done" } else { b"failed" })
}

/// What is done with a path.
#[derive(Clone, Copy)]
enum Deed {
    Folder,
    Remove,
    Write,
    Link,
    Read,
    Mode,
}

/// The deeds by their words.
static DEEDS: [(&str, Deed); 5] = [
    ("folder", Deed::Folder),
    ("remove", Deed::Remove),
    ("write", Deed::Write),
    ("link", Deed::Link),
    ("read", Deed::Read),
];

/// The deed of a word, and `Mode` of another.
fn deed_of(word: &[u8]) -> Deed {
    for (name, deed) in &DEEDS {
        if word == name.as_bytes() {
            return *deed;
        }
    }
    Deed::Mode
}

/// A text that is a path.
fn path_of(text: &[u8]) -> &str {
    str::from_utf8(text).unwrap_or("")
}

/// Makes a file of octets, and puts last whether it was made.
fn put_written<R: Files<File = File>>(
    rt: &R,
    alloc: Global,
    path: &str,
    content: &[u8],
    report: &mut Octets,
) -> Result<(), Memory> {
    let content = octets_of(alloc, content)?;
    put_done(report, write_file(rt, path, content.as_slice()))
}

/// `file folder PATH` makes a folder, `file remove PATH` removes it, `file write PATH OCTETS` makes a file and `file link PATH TARGET`
/// a link; `file read PATH` and `file mode PATH` look at a file.
pub fn put_file_case<R: Files<File = File> + Alloc>(
    rt: &R,
    alloc: Global,
    text: &[u8],
    report: &mut Octets,
) -> Result<(), Memory> {
    let (word, text) = cut_at(text, b' ');
    let (path, content) = cut_at(text, b' ');
    let path = path_of(path);
    match deed_of(word) {
        Deed::Folder => put_done(report, make_folder(rt, path)),
        Deed::Remove => put_done(report, remove_folder(rt, path)),
        Deed::Write => put_written(rt, alloc, path, content, report),
        Deed::Link => put_done(report, make_link(rt, path, path_of(content))),
        Deed::Read => put_content(rt, path, report),
        Deed::Mode => put_mode(report, mode_of(rt, path)),
    }
}
