//! The lines of a configuration in the order of reading.

ghost use Rattle.std.specs.Prelude.{◌≡◌, ◌≢◌, ◌≤◌, ℕ, List, Option, Some, None, IfOk, OnOk, IfSome};
ghost use Rattle.kn_base.specs.Count.{Rose};
ghost use Rattle.kn_base.specs.Shelf.{AsksFor};
ghost use Rattle.config_lines.specs.Files as spec;
ghost use Rattle.config_lines.specs.FilesSteps.{Agrees, Goes, PutsLine, ReadsFile, ReadsIncluded, ReadsLine, ReadsText};
ghost use Rattle.std.specs.Str.Lines.{lines};
ghost use Rattle.config_lines.specs.declared.read.LinesFault.TheVariants.{NoFile};

use crate::line::{Line, LineFault, read_line};
use crate::text::cut_line;
use kn_base::{Items, Memory, Octets, Shelf, ShelfFault};
use std::alloc::Global;

/// How many files may be read.
const MOST_FILES: u32 = 1_000;

/// The name with which a line includes a file.
const INCLUDE: &[u8] = b"include";

/// At how many levels below the first file an include is followed.
const MOST_LEVELS: u32 = 8;

/// A line, and where it stands.
#[derive(Drop)]
pub struct PlacedLine {
    /// The number of its file in the order of reading, from 0.
    pub file: u32,
    /// Its number in the file, from 1.
    pub line: u64,
    pub says: Line,
}

/// Why the reading of lines ended.
#[derive(Clone, Copy)]
pub enum LinesFault {
    /// What stands there is no line. The file is told by its number in the order of reading, from 0, and the line from 1.
    NoLine { file: u32, line: u64 },
    /// A file is included at a deeper level than the eighth, or 1,000 files were read before it.
    TooDeep,
    /// A file could not be had: the shelf's count of faults rose.
    NoFile,
}

/// Lines in the order of reading, up to the first fault.
#[derive(Drop)]
pub struct Read {
    pub lines: Items<PlacedLine>,
    /// The names that the shelf was asked for, in their order.
    pub names: Items<Octets>,
    /// How many files were read.
    pub files: u32,
    pub fault: Option<LinesFault>,
}

/// Puts a line last, or gives the name of the file that it includes.
fn put_line(
    alloc: Global,
    file: u32,
    number: u64,
    octets: &[u8],
    read: &mut Read,
) -> Result<Option<Octets>, Memory>
    requires { read.old.fault ≡ None }
    ensures names { OnOk result (read.new.names ≡ read.old.names) }
    ensures files { OnOk result (read.new.files ≡ read.old.files) }
    ensures present { OnOk result (read.new.fault ≢ Some NoFile) }
    ensures same { IfOk result (λ included. IfSome included (λ _. read.new ≡ read.old)) }
    ensures puts { (include : List ℕ → Read → Read) → IfOk result (λ included. PutsLine include file number octets.now read.old read.new included) }
{
    let says = match read_line(alloc, octets) {
        Ok(says) => says,
        Err(LineFault::NoLine) => {
            read.fault = Some(LinesFault::NoLine { file, line: number });
            return Ok(None);
        }
        Err(LineFault::Memory) => return Err(Memory),
    };
    match says {
        Line::Variable { name, value } if name.as_slice() == INCLUDE => Ok(Some(value)),
        says => {
            read.lines.push(PlacedLine {
                file,
                line: number,
                says,
            })?;
            Ok(None)
        }
    }
}

/// Reads the lines of a text, from the first on, and follows its includes at so many levels.
#[cycle(reading)]
fn add_text<S: Shelf>(
    alloc: Global,
    shelf: &mut S,
    text: &[u8],
    file: u32,
    levels: u32,
    read: &mut Read,
) -> Result<(), Memory>
    requires { read.old.fault ≡ None }
    ensures read { OnOk result (IfSome (S.files shelf.old) (λ all. ReadsText all levels file 1 (lines text.now) read.old read.new)) }
    ensures went { Goes S.files S.asked S.faults shelf.old shelf.new read.old read.new result }
{
    let mut rest = text;
    let mut number = 1;
    for _ in 0..text.len() {
        if rest.is_empty() {
            return Ok(());
        }
        if let Some(_) = read.fault {
            return Ok(());
        }
        let (line, behind) = cut_line(rest);
        rest = behind;
        add_line(alloc, shelf, file, number, line, levels, read)?;
        number += 1;
    }
    Ok(())
}

/// Reads a line, and where it includes a file, that file.
#[cycle(reading)]
fn add_line<S: Shelf>(
    alloc: Global,
    shelf: &mut S,
    file: u32,
    number: u64,
    octets: &[u8],
    levels: u32,
    read: &mut Read,
) -> Result<(), Memory>
    requires { read.old.fault ≡ None }
    ensures read { OnOk result (IfSome (S.files shelf.old) (λ all. ReadsLine all levels file number octets.now read.old read.new)) }
    ensures went { Goes S.files S.asked S.faults shelf.old shelf.new read.old read.new result }
{
    match put_line(alloc, file, number, octets, read)? {
        Some(name) => add_included(alloc, shelf, name.as_slice(), levels, read),
        None => Ok(()),
    }
}

/// Reads an included file, where so many levels are left.
#[cycle(reading)]
fn add_included<S: Shelf>(
    alloc: Global,
    shelf: &mut S,
    name: &[u8],
    levels: u32,
    read: &mut Read,
) -> Result<(), Memory>
    requires { read.old.fault ≡ None }
    ensures read { OnOk result (IfSome (S.files shelf.old) (λ all. ReadsIncluded all levels name.now read.old read.new)) }
    ensures went { Goes S.files S.asked S.faults shelf.old shelf.new read.old read.new result }
{
    if levels == 0 {
        read.fault = Some(LinesFault::TooDeep);
        return Ok(());
    }
    add_file(alloc, shelf, name, levels - 1, read)
}

/// Reads a file, and follows its includes at so many levels.
#[cycle(reading)]
fn add_file<S: Shelf>(
    alloc: Global,
    shelf: &mut S,
    name: &[u8],
    levels: u32,
    read: &mut Read,
) -> Result<(), Memory>
    requires { read.old.fault ≡ None }
    ensures read { OnOk result (IfSome (S.files shelf.old) (λ all. ReadsFile all levels name.now read.old read.new)) }
    ensures went { Goes S.files S.asked S.faults shelf.old shelf.new read.old read.new result }
{
    if read.files >= MOST_FILES {
        read.fault = Some(LinesFault::TooDeep);
        return Ok(());
    }
    read.names.push(Octets::from_slice(alloc, name)?)?;
    match shelf.file(alloc, name) {
        Ok(text) => {
            let file = read.files;
            read.files += 1;
            add_text(alloc, shelf, text.as_slice(), file, levels, read)
        }
        Err(ShelfFault::Failed) => {
            read.fault = Some(LinesFault::NoFile);
            Ok(())
        }
        Err(ShelfFault::Memory) => Err(Memory),
    }
}

/// Reads the lines of the file of a name, with those of each included file in the include's place, up to the first fault.
///
/// `NoLine` exactly at the first line that is outside the grammar, `TooDeep` where an include stands at the eighth level below the
/// first file or 1,000 files were read before it, `NoFile` only where the shelf's count of faults rose, and else it stood still. The shelf
/// is asked for each file once for each place that includes it, and for no other. `Memory`.
#[tactic(auto, using(crate::proofs::Reading::read_from_none, crate::proofs::Reading::asked_from_none))]
pub fn read_lines<S: Shelf>(alloc: Global, shelf: &mut S, name: &[u8]) -> Result<Read, Memory>
    ensures read { IfOk result (λ read. IfSome (S.files shelf.old) (λ all. read ≡ spec.lines_of all (spec.missing_by read.fault read.files) name.now)) }
    ensures kept { S.files shelf.new ≡ S.files shelf.old }
    ensures asked { IfOk result (λ read. AsksFor read.names (S.asked shelf.old) (S.asked shelf.new)) }
    ensures spared { IfOk result (λ read. (read.fault ≢ Some NoFile) → S.faults shelf.new ≡ S.faults shelf.old) }
    ensures missed { IfOk result (λ read. (read.fault ≡ Some NoFile) → Rose (S.faults shelf.old) (S.faults shelf.new)) }
    ensures not_fewer { S.faults shelf.old ≤ S.faults shelf.new }
{
    let mut read = Read {
        lines: Items::new(alloc),
        names: Items::new(alloc),
        files: 0,
        fault: None,
    };
    add_file(alloc, shelf, name, MOST_LEVELS, &mut read)?;
    Ok(read)
}
