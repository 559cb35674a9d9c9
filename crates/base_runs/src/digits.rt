//! Numbers and octets in digits.

use kn_base::{HexFault, Memory, Octets, read_decimal, read_hex, write_decimal, write_hex};
use line_cases::{cut_at, number, put_named};
use std::alloc::Global;

/// `decimal MOST TEXT`: the number that the text writes, where it is at most MOST.
pub fn put_decimal(text: &[u8], report: &mut Octets) -> Result<(), Memory> {
    let (most, text) = cut_at(text, b' ');
    match read_decimal(text, number(most)) {
        Some(value) => write_decimal(report, value),
        None => report.extend_from_slice(b"no number"),
    }
}

/// `hex TEXT NUMBER`: the octets that the text writes, in digits, and behind them the number, where there is one.
pub fn put_hex(alloc: Global, text: &[u8], report: &mut Octets) -> Result<(), Memory> {
    let (text, behind) = cut_at(text, b' ');
    match read_hex(alloc, text) {
        Ok(octets) => write_hex(report, octets.as_slice())?,
        Err(fault) => put_hex_fault(report, fault)?,
    }
    if !behind.is_empty() {
        write_decimal(report, number(behind))?;
    }
    Ok(())
}

fn put_hex_fault(report: &mut Octets, fault: HexFault) -> Result<(), Memory> {
    match fault {
        HexFault::Digit { at } => put_named(report, b"no digit at ", at as u64),
        HexFault::Odd { len } => put_named(report, b"odd ", len as u64),
        HexFault::Memory => Err(Memory),
    }
}
