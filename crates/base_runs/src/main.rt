//! The low crates, of what no clause says: values from outside, calls that succeed where there is memory, that the forms on the
//! machine say what went through, disks call by call, and the journal over disks of both kinds. Cases are lines of standard input, and what each
//! came to is a line of standard output. Behind each function that takes a case stands what its line holds.
#![tactic(auto)]

mod acts;
mod digits;
mod disks;
mod fake;
mod fake_files;
mod files;
mod journal;
mod lists;
mod machine;
mod memory_forms;
mod stops;
mod tables;

use disks::HostDisks;
use kn_base::{Memory, Octets};
use line_cases::{Cases, cut_at, run_lines};
use std::alloc::Global;
use std::fs::{File, Files};
use std::process::ExitCode;
use std::rt::Runtime;

/// The cases of the low crates, some of which need the machine.
#[derive(Drop)]
struct BaseCases<R: Runtime + Files<File = File> + Alloc + Copy> {
    rt: R,
}

impl<R: Runtime + Files<File = File> + Alloc + Copy> Cases for BaseCases<R> {
    fn report(&self, alloc: Global, line: &[u8], report: &mut Octets) -> Result<(), Memory> {
        let (kind, text) = cut_at(line, b' ');
        if kind == b"each".as_slice() {
            return journal::put_each(alloc, text, report);
        }
        if kind == b"stops".as_slice() {
            return stops::put_stops(alloc, text, report);
        }
        if kind == b"stopped".as_slice() {
            return journal::put_stopped(alloc, text, report);
        }
        report.extend_from_slice(b"    ")?;
        put_case(self.rt, alloc, kind, text, report)?;
        report.push(b'\n')
    }
}

/// Puts last what a case of one line came to.
fn put_case<R: Runtime + Files<File = File> + Alloc + Copy>(
    rt: R,
    alloc: Global,
    kind: &[u8],
    text: &[u8],
    report: &mut Octets,
) -> Result<(), Memory> {
    if kind == b"value".as_slice() {
        put_value(alloc, text, report)
    } else if kind == b"memory".as_slice() {
        put_memory(alloc, text, report)
    } else if kind == b"fake".as_slice() {
        put_fake(alloc, text, report)
    } else if kind == b"store".as_slice() {
        journal::put_store(alloc, text, report)
    } else if kind == b"machine".as_slice() {
        put_machine(rt, alloc, text, report)
    } else if kind == b"file".as_slice() {
        files::put_file_case(&rt, alloc, text, report)
    } else {
        disks::put_disk_case(&HostDisks { rt }, alloc, kind, text, report)
    }
}

/// `value decimal`, `value hex`, `value octets`, `value items`, `value calls`, `value table`, `value raised`.
fn put_value(alloc: Global, text: &[u8], report: &mut Octets) -> Result<(), Memory> {
    let (kind, text) = cut_at(text, b' ');
    if kind == b"decimal".as_slice() {
        digits::put_decimal(text, report)
    } else if kind == b"hex".as_slice() {
        digits::put_hex(alloc, text, report)
    } else if kind == b"octets".as_slice() {
        lists::put_octets(alloc, text, report)
    } else if kind == b"items".as_slice() {
        lists::put_items(alloc, text, report)
    } else if kind == b"calls".as_slice() {
        lists::put_all_calls(alloc, text, report)
    } else if kind == b"table".as_slice() {
        tables::put_table(alloc, text, report)
    } else {
        lists::put_raised(text, report)
    }
}

/// `memory peer`, `memory clock`, `memory shelf`.
fn put_memory(alloc: Global, text: &[u8], report: &mut Octets) -> Result<(), Memory> {
    let (kind, text) = cut_at(text, b' ');
    if kind == b"peer".as_slice() {
        memory_forms::put_peer(alloc, text, report)
    } else if kind == b"clock".as_slice() {
        memory_forms::put_clock(alloc, text, report)
    } else {
        memory_forms::put_shelf(alloc, text, report)
    }
}

/// `fake peer`, `fake errors`, `fake clock`, `fake files`.
fn put_fake(alloc: Global, text: &[u8], report: &mut Octets) -> Result<(), Memory> {
    let (kind, text) = cut_at(text, b' ');
    if kind == b"peer".as_slice() {
        machine::put_fake_peer(alloc, text, report)
    } else if kind == b"errors".as_slice() {
        machine::put_fake_errors(alloc, text, report)
    } else if kind == b"files".as_slice() {
        fake_files::put_fake_files(alloc, report)
    } else {
        machine::put_fake_clock(alloc, text, report)
    }
}

/// `machine clock`, `machine output`, `machine errors`, `machine shelf`.
fn put_machine<R: Runtime + Files<File = File> + Alloc + Copy>(
    rt: R,
    alloc: Global,
    text: &[u8],
    report: &mut Octets,
) -> Result<(), Memory> {
    let (kind, text) = cut_at(text, b' ');
    if kind == b"clock".as_slice() {
        machine::put_clock(rt, report)
    } else if kind == b"output".as_slice() {
        machine::put_output(rt, alloc, text, report)
    } else if kind == b"errors".as_slice() {
        machine::put_errors(rt, alloc, text, report)
    } else {
        machine::put_shelf(rt, alloc, text, report)
    }
}

fn main(rt: HostRuntime) -> ExitCode {
    run_lines(rt, rt.alloc(), &BaseCases { rt })
}
