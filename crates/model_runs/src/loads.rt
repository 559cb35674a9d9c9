//! A gate that is read from payloads.

ghost use Rattle.gate_model.specs.Loading.{gate_in};

use crate::acts::put_totals;
use crate::entries::entry_octets;
use crate::rules::rules_of;
use gate_model::{LoadFault, Loader};
use kn_base::{Memory, Octets};
use line_cases::{cut_item, numbers_of};
use std::alloc::Global;

/// Hands a loader the entry of an act, and puts last what it answers. It is dropped after a refusal.
fn put_payload(
    alloc: Global,
    loader: &mut Loader,
    act: &[u8],
    report: &mut Octets,
) -> Result<bool, Memory>
{
    let octets = entry_octets(alloc, act)?;
    match loader.put(octets.as_slice()) {
        Ok(()) => report.extend_from_slice(b"taken | ")?,
        Err(LoadFault::Outside) => {
            report.extend_from_slice(b"outside")?;
            return Ok(false);
        }
        Err(LoadFault::Memory) => return Err(Memory),
    }
    Ok(true)
}

/// Hands a loader the entries of acts, up to the first that is refused, and puts last what was read.
fn put_payloads(
    alloc: Global,
    loader: Loader,
    acts: &[u8],
    report: &mut Octets,
) -> Result<(), Memory>
{
    let mut loader = loader;
    let mut rest = acts;
    for _ in 0..acts.len() {
        if rest.is_empty() {
            break;
        }
        let (act, behind) = cut_item(rest);
        rest = behind;
        if !put_payload(alloc, &mut loader, act, report)? {
            return Ok(());
        }
    }
    match loader.whole() {
        Some(gate) => put_totals(report, gate.totals()),
        None => Ok(()),
    }
}

/// What the entries of a line come to.
pub(crate) fn put_load(alloc: Global, line: &[u8], report: &mut Octets) -> Result<(), Memory> {
    let (head, acts) = cut_item(line);
    let numbers = numbers_of(alloc, head)?;
    let rules = rules_of(alloc, numbers.as_slice())?;
    match Loader::new(alloc, rules, 1) {
        Ok(loader) => put_payloads(alloc, loader, acts, report),
        Err((_, Memory)) => Err(Memory),
    }
}
