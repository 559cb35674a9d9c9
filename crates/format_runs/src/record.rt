//! Records, entries and headers that were written out by hand from the format, and what the calls make of them.

ghost use Rattle.sms_record.specs.Record.{IsSms};

use exact_octets::RecordFault;
use gate_entries::{read_accept, write_accept};
use kn_base::{Memory, Octets, write_hex};
use line_cases::{cut_at, number, octet, octets_of, put_named, put_text};
use sms_record::header::{element_at, header_count_at};
use sms_record::{Sms, copy_sms, read_sms, write_sms};
use std::alloc::Global;

/// The message `hello` from 123 to 0123456, asked for by `tester` at second 1,000.
const RECORD: &[u8] = &[
    // from the number 123
    0, 3, b'1', b'2', b'3', // to the number 0123456
    0, 7, b'0', b'1', b'2', b'3', b'4', b'5', b'6', // septets, no class, UTF-8, part 1 of 1, no reports
    0, 0xFF, 0, 1, 1, 0, // no end, at once, at second 1,000
    0, 0, 0, 0, 0, 0, 0, 0, 0, 0, 0, 0, 0, 0, 0x03, 0xE8, // no header
    0, // the body
    0, 5, b'h', b'e', b'l', b'l', b'o', // any link, no URL, no account
    0, 0, 0, 0, // the service
    6, b't', b'e', b's', b't', b'e', b'r',
];

/// What stands before the record in the entry of that one message, taken at second 1,000.
const ENTRY_HEAD: &[u8] = &[1, 0, 0, 0, 0, 0, 0, 0x03, 0xE8, 0, 1];

/// The message of the record, without its body.
pub fn message_without_body(alloc: Global) -> Result<Sms, Memory> {
    match read_sms(alloc, RECORD) {
        Ok((mut sms, _)) => {
            sms.body = Octets::new(alloc);
            Ok(sms)
        }
        Err(_) => Err(Memory),
    }
}

fn put_fault(report: &mut Octets, fault: RecordFault) -> Result<(), Memory> {
    match fault {
        RecordFault::Short => report.extend_from_slice(b"short"),
        RecordFault::Malformed { at } => put_named(report, b"malformed ", at as u64),
        RecordFault::Memory => Err(Memory),
    }
}

/// The record behind some octets, and behind it the octets of a text `..OCTETS`; or with another octet at a place, of a text `PLACE OCTET`.
fn changed(alloc: Global, front: &[u8], text: &[u8]) -> Result<Octets, Memory> {
    let mut octets = Octets::from_slice(alloc, front)?;
    octets.extend_from_slice(RECORD)?;
    if text.starts_with(b"..") {
        octets.extend_from_slice(octets_of(alloc, &text[2..])?.as_slice())?;
        return Ok(octets);
    }
    let (place, other) = cut_at(text, b' ');
    let place = number(place) as usize;
    Ok(if other.is_empty() {
        octets
    } else {
        with_octet(octets, place, octet(other))
    })
}

/// The octets with another one at a place, where there is such a place.
fn with_octet(octets: Octets, place: usize, octet: u8) -> Octets {
    let mut octets = octets.into_vec();
    if place < octets.len() {
        octets[place] = octet;
    }
    Octets::from_vec(octets)
}

/// Puts last how long a record is, and what its message holds: its body, its service and its time.
fn put_held(report: &mut Octets, sms: &Sms, len: usize) -> Result<(), Memory> {
    put_named(report, b"record ", len as u64)?;
    report.extend_from_slice(b" | ")?;
    put_text(report, sms.body.as_slice())?;
    report.extend_from_slice(b" | ")?;
    put_text(report, sms.service.as_slice())?;
    put_named(report, b" | ", sms.time)
}

/// Puts last what is read of a record, and how long it is.
fn put_read(alloc: Global, octets: &[u8], report: &mut Octets) -> Result<(), Memory> {
    match read_sms(alloc, octets) {
        Ok((sms, len)) => put_held(report, &sms, len),
        Err(fault) => put_fault(report, fault),
    }
}

/// Puts the octets of a message last.
fn put_sms(alloc: Global, sms: &Sms, report: &mut Octets) -> Result<(), Memory>
    requires { IsSms sms.now }
{
    let mut octets = Octets::new(alloc);
    write_sms(&mut octets, sms)?;
    write_hex(report, octets.as_slice())
}

/// Puts the octets of a message and those of its copy last.
fn put_both(alloc: Global, sms: &Sms, report: &mut Octets) -> Result<(), Memory>
    requires { IsSms sms.now }
{
    put_sms(alloc, sms, report)?;
    report.extend_from_slice(b" | ")?;
    let copy = copy_sms(alloc, sms)?;
    put_sms(alloc, &copy, report)
}

/// Puts last what is written of the record that is read.
fn put_written(alloc: Global, octets: &[u8], report: &mut Octets) -> Result<(), Memory> {
    match read_sms(alloc, octets) {
        Ok((sms, _)) => put_both(alloc, &sms, report),
        Err(fault) => put_fault(report, fault),
    }
}

/// Puts last what is read of an entry: how many messages it has.
fn put_entry_read(alloc: Global, octets: &[u8], report: &mut Octets) -> Result<(), Memory> {
    match read_accept(alloc, octets) {
        Ok(accept) => put_named(report, b"entry ", accept.parts.len() as u64),
        Err(fault) => put_fault(report, fault),
    }
}

/// Puts last what is written of the entry that is read.
fn put_entry_written(alloc: Global, octets: &[u8], report: &mut Octets) -> Result<(), Memory> {
    let mut again = Octets::new(alloc);
    match read_accept(alloc, octets) {
        Ok(accept) => write_accept(&mut again, &accept)?,
        Err(fault) => put_fault(report, fault)?,
    }
    write_hex(report, again.as_slice())
}

/// What is read of a front of a record or an entry.
fn front_line(alloc: Global, front: &[u8], is_entry: bool) -> Result<Octets, Memory> {
    let mut line = Octets::new(alloc);
    if is_entry {
        put_entry_read(alloc, front, &mut line)?;
    } else {
        put_read(alloc, front, &mut line)?;
    }
    line.extend_from_slice(b" | ")?;
    Ok(line)
}

/// Puts last what is read of each front of a record or an entry, once where those beside it are the same.
fn put_cuts(
    alloc: Global,
    octets: &[u8],
    is_entry: bool,
    report: &mut Octets,
) -> Result<(), Memory> {
    let mut last = Octets::new(alloc);
    for cut in 0..octets.len() {
        let line = front_line(alloc, &octets[..cut], is_entry)?;
        if line.as_slice() != last.as_slice() {
            report.extend_from_slice(line.as_slice())?;
        }
        last = line;
    }
    Ok(())
}

/// `record read`, `record read ..OCTETS`, `record read PLACE OCTET`, `record written`, `record cut`: of the record, also with octets
/// behind it or another octet at a place.
pub fn put_record(alloc: Global, text: &[u8], report: &mut Octets) -> Result<(), Memory> {
    let (kind, text) = cut_at(text, b' ');
    let octets = changed(alloc, &[], text)?;
    if kind == b"read".as_slice() {
        put_read(alloc, octets.as_slice(), report)
    } else if kind == b"written".as_slice() {
        put_written(alloc, octets.as_slice(), report)
    } else {
        put_cuts(alloc, octets.as_slice(), false, report)
    }
}

/// The same of the entry.
pub fn put_entry(alloc: Global, text: &[u8], report: &mut Octets) -> Result<(), Memory> {
    let (kind, text) = cut_at(text, b' ');
    let octets = changed(alloc, ENTRY_HEAD, text)?;
    if kind == b"read".as_slice() {
        put_entry_read(alloc, octets.as_slice(), report)
    } else if kind == b"written".as_slice() {
        put_entry_written(alloc, octets.as_slice(), report)
    } else {
        put_cuts(alloc, octets.as_slice(), true, report)
    }
}

/// Puts last how many elements a header has, or how many stand before what is none.
fn put_elements(header: &[u8], report: &mut Octets) -> Result<(), Memory> {
    let Ok((count, mut rest)) = header_count_at(header) else {
        return report.extend_from_slice(b"no header");
    };
    let mut left = count as usize;
    for elements in 0..128 {
        if left == 0 {
            return put_named(report, b"header ", elements);
        }
        let Ok((element, after)) = element_at(rest, left) else {
            return put_named(report, b"no element ", elements);
        };
        rest = after;
        left -= element.value.len() + 2;
    }
    report.extend_from_slice(b"long")
}

/// Puts an element last, of which so many octets may be taken: its kind, its value, and what stands behind it.
fn put_element(octets: &[u8], left: usize, report: &mut Octets) -> Result<(), Memory> {
    let Ok((element, rest)) = element_at(octets, left) else {
        return report.extend_from_slice(b"no element");
    };
    put_named(report, b"kind ", u64::from(element.id))?;
    report.extend_from_slice(b" | ")?;
    write_hex(report, element.value)?;
    report.extend_from_slice(b" | ")?;
    write_hex(report, rest)
}

/// `header walked OCTETS`, `header LEFT OCTETS`: a header element by element, or the element that stands first.
pub fn put_header(alloc: Global, text: &[u8], report: &mut Octets) -> Result<(), Memory> {
    let (kind, text) = cut_at(text, b' ');
    let octets = octets_of(alloc, text)?;
    if kind == b"walked".as_slice() {
        put_elements(octets.as_slice(), report)
    } else {
        put_element(octets.as_slice(), number(kind) as usize, report)
    }
}
