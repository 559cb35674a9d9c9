//! A message as a part of a line.

use crate::{charset_name, coding_name, put_address, put_hex, put_octets};
use kn_base::{Memory, Octets};
use line_cases::put_named;
use sms_record::Sms;

/// Puts a message last, behind its name: from whom to whom, which part it is of how many, how it is read, and what stands in it; and what
/// it has beside that, where it has it.
pub fn put_sms(report: &mut Octets, name: &[u8], sms: &Sms) -> Result<(), Memory> {
    report.extend_from_slice(name)?;
    put_address(report, &sms.sender)?;
    report.extend_from_slice(b" to")?;
    put_address(report, &sms.receiver)?;
    put_named(report, b" ", u64::from(sms.part))?;
    put_named(report, b"/", u64::from(sms.total))?;
    put_manner(report, sms)?;
    put_hex(report, b" ", sms.body.as_slice())?;
    put_some_octets(report, sms)?;
    put_some_numbers(report, sms)?;
    put_named(report, b" at ", sms.time)
}

// How a message is read.
fn put_manner(report: &mut Octets, sms: &Sms) -> Result<(), Memory> {
    report.extend_from_slice(coding_name(sms.coding))?;
    report.extend_from_slice(charset_name(sms.charset))?;
    if let Some(class) = sms.class {
        put_named(report, b" class ", u64::from(class))?;
    }
    Ok(())
}

// The octets that it has.
fn put_some_octets(report: &mut Octets, sms: &Sms) -> Result<(), Memory> {
    if !sms.udh.is_empty() {
        put_hex(report, b" udh ", sms.udh.as_slice())?;
    }
    for (name, octets) in [
        (b" smsc ".as_slice(), sms.smsc.as_slice()),
        (b" url ", sms.url.as_slice()),
        (b" account ", sms.account.as_slice()),
        (b" service ", sms.service.as_slice()),
    ] {
        if !octets.is_empty() {
            put_octets(report, name, octets)?;
        }
    }
    Ok(())
}

// The numbers that aren't 0.
fn put_some_numbers(report: &mut Octets, sms: &Sms) -> Result<(), Memory> {
    for (name, number) in [
        (b" mask ".as_slice(), u64::from(sms.mask)),
        (b" validity ", u64::from(sms.validity)),
        (b" deferred ", u64::from(sms.deferred)),
    ] {
        if number != 0 {
            put_named(report, name, number)?;
        }
    }
    Ok(())
}
