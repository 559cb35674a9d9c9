//! The house in memory that a case describes.

use crate::case::{Case, STORE_FILE};
use boxes_main::MemHouse;
use kn_base::{HexFault, MemClock, MemPeer, MemShelf, MemTake, Memory, Octets, read_hex};
use line_cases::{both, cut_at, octets_of};
use std::alloc::Global;
use store_disk::MemDisk;

/// Which calls fail, of a visitor and of standard output.
#[derive(Clone, Copy)]
pub struct Failing {
    pub visitor: Option<u64>,
    pub output: Option<u64>,
}

/// No call fails.
pub const NONE_FAILS: Failing = Failing {
    visitor: None,
    output: None,
};

/// The text of gate.conf.
fn text_of(alloc: Global, case: Case, text: &[u8]) -> Result<Octets, Memory> {
    let (front, text) = both(octets_of(alloc, case.core), octets_of(alloc, text))?;
    if front.is_empty() {
        return Ok(text);
    }
    let mut all = front;
    all.push(b'\n')?;
    all.extend_from_slice(text.as_slice())?;
    Ok(all)
}

/// Puts a file last, by its name.
fn put_file(
    alloc: Global,
    files: &mut Vec<(Octets, Octets)>,
    name: &[u8],
    text: Octets,
) -> Result<(), Memory> {
    files.push((Octets::from_slice(alloc, name)?, text))?;
    Ok(())
}

/// The shelf with the files.
fn shelf_of(alloc: Global, case: Case) -> Result<MemShelf, Memory> {
    let mut files = Vec::new(alloc);
    if let Some(text) = case.file {
        let text = text_of(alloc, case, text)?;
        put_file(alloc, &mut files, b"gate.conf", text)?;
    }
    let (name, text) = cut_at(case.also, b' ');
    if !name.is_empty() {
        put_file(alloc, &mut files, name, octets_of(alloc, text)?)?;
    }
    let failing = if case.shelf_fails { Some(0) } else { None };
    Ok(MemShelf::new(alloc, files, numbers_of(alloc, failing)?))
}

/// The octets in pieces of one size, and the last one of what is left.
fn pieces_of(alloc: Global, octets: &[u8], size: u64) -> Result<Vec<MemTake>, Memory> {
    let mut takes = Vec::new(alloc);
    let mut rest = octets;
    for _ in 0..octets.len() {
        if rest.is_empty() {
            break;
        }
        let (piece, behind) = rest.split_at(rest.len().min(size as usize));
        takes.push(MemTake::Bytes(Octets::from_slice(alloc, piece)?))?;
        rest = behind;
    }
    Ok(takes)
}

/// So many octets, of a text again and again.
fn flood_of(alloc: Global, text: &[u8], len: u64) -> Result<Octets, Memory> {
    let mut octets = Octets::new(alloc);
    for _ in 0..len {
        if text.is_empty() || octets.len() as u64 >= len {
            break;
        }
        octets.extend_from_slice(text)?;
    }
    octets.truncate(len as usize);
    Ok(octets)
}

/// All that the visitor says.
fn request_of(alloc: Global, case: Case) -> Result<Octets, Memory> {
    let request = octets_of(alloc, case.request)?;
    match case.flood {
        Some(len) => flood_of(alloc, request.as_slice(), len),
        None => Ok(request),
    }
}

/// What the visitor says, take by take.
fn takes_of(alloc: Global, case: Case) -> Result<Vec<MemTake>, Memory> {
    let request = request_of(alloc, case)?;
    let mut takes = pieces_of(alloc, request.as_slice(), case.size)?;
    if case.quiet {
        takes.push(MemTake::Quiet)?;
    }
    Ok(takes)
}

/// The visitor, one call of which may fail.
fn visitor_of(alloc: Global, case: Case, failing: Option<u64>) -> Result<MemPeer, Memory> {
    let (takes, failing) = both(takes_of(alloc, case), numbers_of(alloc, failing))?;
    Ok(MemPeer::new(alloc, takes, failing))
}

/// A list with the number, where there is one.
fn numbers_of(alloc: Global, number: Option<u64>) -> Result<Vec<u64>, Memory> {
    let mut numbers = Vec::new(alloc);
    if let Some(number) = number {
        numbers.push(number)?;
    }
    Ok(numbers)
}

/// The octets of an area. What is no hexadecimal text stands for none.
fn area_of(alloc: Global, text: &[u8]) -> Result<Octets, Memory> {
    match read_hex(alloc, text) {
        Ok(octets) => Ok(octets),
        Err(HexFault::Memory) => Err(Memory),
        Err(_) => Ok(Octets::new(alloc)),
    }
}

/// The numbers of the disk's calls that fail: those of the case, and maybe one more.
fn failing_of(alloc: Global, case: Case, failing: Option<u64>) -> Result<Vec<u64>, Memory> {
    let mut numbers = line_cases::numbers_of(alloc, case.failing)?;
    if let Some(failing) = failing {
        numbers.push(failing)?;
    }
    Ok(numbers)
}

/// The disk, of whose calls one more than the case says may fail.
pub fn disk_of(alloc: Global, case: Case, failing: Option<u64>) -> Result<MemDisk, Memory> {
    let areas = both(area_of(alloc, case.a), area_of(alloc, case.b));
    let others = both(area_of(alloc, case.pick), failing_of(alloc, case, failing));
    let ((a, b), (pick, failing)) = both(areas, others)?;
    Ok(MemDisk::new(alloc, a, b, pick, failing))
}

/// A clock that reads 1000.
fn clocks_of(alloc: Global) -> Result<Vec<MemClock>, Memory> {
    let readings = vec![in alloc; 1000]?;
    Ok(vec![in alloc; MemClock::new(alloc, readings)]?)
}

/// The disk under the name of the store.
fn named<D: Drop>(alloc: Global, disk: D) -> Result<Vec<(Octets, D)>, Memory> {
    let name = Octets::from_slice(alloc, STORE_FILE)?;
    let mut disks = Vec::new(alloc);
    disks.push((name, disk))?;
    Ok(disks)
}

/// Standard output and standard error. One call of the first may fail.
fn sinks_of(alloc: Global, failing: Option<u64>) -> Result<(MemPeer, MemPeer), Memory> {
    let output = MemPeer::new(alloc, Vec::new(alloc), numbers_of(alloc, failing)?);
    let errors = MemPeer::new(alloc, Vec::new(alloc), Vec::new(alloc));
    Ok((output, errors))
}

/// A house with the birth 1, a clock that reads 1000 and this disk. Calls of its visitor and of standard output may fail.
pub fn house_of(
    alloc: Global,
    case: Case,
    failing: Failing,
    disk: MemDisk,
) -> Result<MemHouse<MemPeer>, Memory> {
    let of_output = if case.output_fails {
        Some(0)
    } else {
        failing.output
    };
    let rooms = both(
        visitor_of(alloc, case, failing.visitor),
        shelf_of(alloc, case),
    );
    let stock = both(clocks_of(alloc), named(alloc, disk));
    let ((visitor, shelf), (clocks, disks)) = both(rooms, stock)?;
    let (output, errors) = sinks_of(alloc, of_output)?;
    let dialers = Vec::new(alloc);
    Ok(MemHouse::new(
        alloc, visitor, shelf, output, errors, 1, clocks, dialers, disks,
    ))
}
