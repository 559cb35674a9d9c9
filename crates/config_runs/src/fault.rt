//! Why a configuration is refused.

use config_groups::ConfigFault;
use kn_base::{Memory, Octets};
use line_cases::put_named;

/// Puts a place last, behind what is wrong there.
fn put_place(report: &mut Octets, fault: &[u8], file: u32, line: u64) -> Result<(), Memory> {
    report.extend_from_slice(fault)?;
    put_named(report, b" ", u64::from(file))?;
    put_named(report, b" ", line)
}

/// Puts a fault last.
pub fn put_fault(report: &mut Octets, fault: &ConfigFault) -> Result<(), Memory> {
    match fault {
        ConfigFault::Line { file, line } => put_place(report, b"line", *file, *line),
        ConfigFault::Value { file, line } => put_place(report, b"value", *file, *line),
        ConfigFault::TooDeep => report.extend_from_slice(b"too deep"),
        ConfigFault::NoFile => report.extend_from_slice(b"no file"),
        ConfigFault::Missing { group, variable } => {
            put_named(report, b"missing ", *group)?;
            report.push(b' ')?;
            report.extend_from_slice(variable.as_slice())
        }
        ConfigFault::Memory => report.extend_from_slice(b"memory"),
    }
}
