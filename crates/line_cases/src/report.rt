//! Parts of reports.

use kn_base::{Memory, Octets, write_decimal};

/// Puts a number last, behind its name.
pub fn put_named(into: &mut Octets, name: &[u8], number: u64) -> Result<(), Memory> {
    into.extend_from_slice(name)?;
    write_decimal(into, number)
}

/// Puts a line last, unless it is the last one once more.
pub fn put_new(report: &mut Octets, last: &mut Octets, line: Octets) -> Result<(), Memory> {
    if line.as_slice() != last.as_slice() {
        report.extend_from_slice(line.as_slice())?;
        report.push(b'\n')?;
    }
    *last = line;
    Ok(())
}
