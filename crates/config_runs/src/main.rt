//! Configurations as users have them. A line of standard input holds files, `NAME TEXT` each, between bars; the first is the
//! configuration. What it comes to is a line of standard output below it. Where `lines` stands in front, each of the lines that
//! are read of it is one; where `route` or `carries` does, the links of a configuration are tried.
#![tactic(auto)]

mod fault;
mod groups;
mod lines;
mod routes;

use config_groups::{ConfigFault, Settings, read_config};
use fault::put_fault;
use groups::put_settings;
use kn_base::{MemShelf, Memory, Octets};
use line_cases::{Cases, cut_at, cut_item, octets_of, run_lines};
use lines::put_lines;
use routes::{put_carried, put_route};
use std::alloc::Global;
use std::process::ExitCode;

/// The cases of configurations.
struct ConfigCases;

impl Cases for ConfigCases {
    fn report(&self, alloc: Global, line: &[u8], report: &mut Octets) -> Result<(), Memory> {
        let (kind, text) = cut_at(line, b' ');
        if kind == b"lines".as_slice() {
            return put_lines(alloc, text, report);
        }
        report.extend_from_slice(b"    ")?;
        put_case(alloc, kind, (line, text), report)?;
        report.push(b'\n')
    }
}

/// Puts last what a case came to: a line, of which the text stands behind its first word.
fn put_case(
    alloc: Global,
    kind: &[u8],
    (line, text): (&[u8], &[u8]),
    report: &mut Octets,
) -> Result<(), Memory> {
    if kind == b"route".as_slice() {
        put_route(alloc, text, report)
    } else if kind == b"carries".as_slice() {
        put_carried(alloc, text, report)
    } else {
        put_config(config_in(alloc, line)?, report)
    }
}

/// The files of a line.
pub(crate) fn shelf_of(alloc: Global, line: &[u8]) -> Result<MemShelf, Memory> {
    let mut files = Vec::new(alloc);
    let mut rest = line;
    for _ in 0..line.len() {
        if rest.is_empty() {
            break;
        }
        let (item, behind) = cut_item(rest);
        rest = behind;
        let (name, text) = cut_at(item, b' ');
        files.push((Octets::from_slice(alloc, name)?, octets_of(alloc, text)?))?;
    }
    Ok(MemShelf::new(alloc, files, Vec::new(alloc)))
}

/// What the first file of a line comes to.
fn config_in(alloc: Global, line: &[u8]) -> Result<Result<Settings, ConfigFault>, Memory> {
    let (name, _) = cut_at(line, b' ');
    let mut shelf = shelf_of(alloc, line)?;
    Ok(read_config(alloc, &mut shelf, name))
}

fn put_config(config: Result<Settings, ConfigFault>, report: &mut Octets) -> Result<(), Memory> {
    match config {
        Ok(settings) => put_settings(report, &settings),
        Err(fault) => put_fault(report, &fault),
    }
}

fn main(rt: HostRuntime) -> ExitCode {
    run_lines(rt, rt.alloc(), &ConfigCases)
}
