//! Cases in which each call of a kind fails in turn, until a run has none to fail.

use crate::case::Case;
use crate::house::{Failing, NONE_FAILS};
use crate::outcome::{put_outcome, put_status, put_told};
use crate::run::run_once;
use kn_base::{Memory, Octets};
use line_cases::put_new;
use std::alloc::Global;

/// More calls than any run makes.
const MOST_CALLS: u64 = 1_000;

/// The line of a run in which a call of the disk fails, and whether one did.
fn disk_line(alloc: Global, case: Case, call: u64) -> Result<(Octets, bool), Memory> {
    let outcome = run_once(alloc, case, NONE_FAILS, Some(call))?;
    let mut line = Octets::new(alloc);
    put_outcome(&mut line, &outcome)?;
    Ok((line, outcome.disk_failed))
}

/// Runs a case once for each call of its disk, which fails. Lines that are the same one after the other are one.
pub fn run_each_disk_call(alloc: Global, case: Case, report: &mut Octets) -> Result<(), Memory> {
    let mut last = Octets::new(alloc);
    for call in 0..MOST_CALLS {
        let (line, has_failed) = disk_line(alloc, case, call)?;
        put_new(report, &mut last, line)?;
        if !has_failed {
            break;
        }
    }
    Ok(())
}

/// What was said, beside what a run says in which no call fails, and the run before.
fn front_of(said: &[u8], before: usize, whole: &[u8]) -> &'static [u8] {
    if said.is_empty() {
        b" | said nothing"
    } else if said == whole {
        b" | said all of it"
    } else if whole.starts_with(said) && before <= said.len() {
        b" | said a front of it"
    } else {
        b" | said something else"
    }
}

/// The line of a run in which a call of the visitor fails, where said is compared with the whole answer, and whether one did. It
/// takes how much was said in the run before, and leaves how much was in this one.
fn visitor_line(
    alloc: Global,
    case: Case,
    call: u64,
    whole: &[u8],
    before: &mut usize,
) -> Result<(Octets, bool), Memory> {
    let failing = Failing {
        visitor: Some(call),
        output: None,
    };
    let outcome = run_once(alloc, case, failing, None)?;
    let mut line = Octets::new(alloc);
    put_status(&mut line, &outcome)?;
    line.extend_from_slice(front_of(outcome.said.as_slice(), *before, whole))?;
    put_told(&mut line, &outcome)?;
    line.extend_from_slice(outcome.areas.as_slice())?;
    *before = outcome.said.len();
    Ok((line, outcome.visitor_failed))
}

/// Runs a case once for each call of its visitor, which fails. Lines that are the same one after the other are one.
pub fn run_each_visitor_call(alloc: Global, case: Case, report: &mut Octets) -> Result<(), Memory> {
    let whole = run_once(alloc, case, NONE_FAILS, None)?.said;
    let mut before = 0;
    let mut last = Octets::new(alloc);
    for call in 0..MOST_CALLS {
        let (line, has_failed) = visitor_line(alloc, case, call, whole.as_slice(), &mut before)?;
        put_new(report, &mut last, line)?;
        if !has_failed {
            break;
        }
    }
    Ok(())
}

/// The line of a run in which a call of standard output fails, where what was written is compared with what is written in whole, and
/// whether one did.
fn output_line(
    alloc: Global,
    case: Case,
    call: u64,
    whole: &[u8],
) -> Result<(Octets, bool), Memory> {
    let failing = Failing {
        visitor: None,
        output: Some(call),
    };
    let outcome = run_once(alloc, case, failing, None)?;
    let mut line = Octets::new(alloc);
    put_status(&mut line, &outcome)?;
    line.extend_from_slice(front_of(outcome.out.as_slice(), 0, whole))?;
    put_told(&mut line, &outcome)?;
    line.extend_from_slice(outcome.areas.as_slice())?;
    Ok((line, outcome.output_failed))
}

/// Runs a case once for each call of standard output, which fails. Lines that are the same one after the other are one.
pub fn run_each_output_call(alloc: Global, case: Case, report: &mut Octets) -> Result<(), Memory> {
    let whole = run_once(alloc, case, NONE_FAILS, None)?.out;
    let mut last = Octets::new(alloc);
    for call in 0..MOST_CALLS {
        let (line, has_failed) = output_line(alloc, case, call, whole.as_slice())?;
        put_new(report, &mut last, line)?;
        if !has_failed {
            break;
        }
    }
    Ok(())
}
