//! The lines of a configuration, in the order of reading.

use crate::shelf_of;
use config_lines::{Line, LinesFault, PlacedLine, Read, read_lines};
use kn_base::{Memory, Octets};
use line_cases::{cut_at, put_named, put_text};
use std::alloc::Global;

/// `lines NAME TEXT | NAME TEXT ..`: each line that is read of the first file, and how the reading ended.
pub fn put_lines(alloc: Global, files: &[u8], report: &mut Octets) -> Result<(), Memory> {
    let (name, _) = cut_at(files, b' ');
    let mut shelf = shelf_of(alloc, files)?;
    put_read(report, &read_lines(alloc, &mut shelf, name)?)
}

/// Puts last what was read: a line for each, and the end.
fn put_read(report: &mut Octets, read: &Read) -> Result<(), Memory> {
    for line in read.lines.as_slice() {
        put_line(report, line)?;
    }
    report.extend_from_slice(b"    ")?;
    match read.fault {
        None => put_named(report, b"files: ", u64::from(read.files))?,
        Some(fault) => put_fault(report, fault)?,
    }
    report.push(b'\n')
}

/// Puts last where a line stands and what it says.
fn put_line(report: &mut Octets, line: &PlacedLine) -> Result<(), Memory> {
    put_named(report, b"    ", u64::from(line.file))?;
    put_named(report, b":", line.line)?;
    put_says(report, &line.says)?;
    report.push(b'\n')
}

/// Puts last what a line says.
fn put_says(report: &mut Octets, says: &Line) -> Result<(), Memory> {
    match says {
        Line::Blank => report.extend_from_slice(b" ends a group"),
        Line::Comment => report.extend_from_slice(b" is a comment"),
        Line::Variable { name, value } => {
            report.push(b' ')?;
            put_text(report, name.as_slice())?;
            report.push(b'=')?;
            put_text(report, value.as_slice())
        }
    }
}

/// Puts last why the reading ended.
fn put_fault(report: &mut Octets, fault: LinesFault) -> Result<(), Memory> {
    match fault {
        LinesFault::NoLine { file, line } => {
            put_named(report, b"no line ", u64::from(file))?;
            put_named(report, b":", line)
        }
        LinesFault::TooDeep => report.extend_from_slice(b"too deep"),
        LinesFault::NoFile => report.extend_from_slice(b"no file"),
    }
}
