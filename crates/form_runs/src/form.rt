//! A form as a line.

use kn_base::{Memory, Octets};
use line_cases::put_named;
use sendsms_form::Form;
use sms_lines::{charset_name, coding_name, put_address, put_hex, put_octets};
use sms_record::Sms;

/// Puts a form last: to whom and from whom, how it is read, what becomes of it, what is to be heard of it, and its body in hex.
pub fn put_form(report: &mut Octets, form: &Form) -> Result<(), Memory> {
    report.extend_from_slice(b"to")?;
    for receiver in form.receivers.as_slice() {
        put_address(report, receiver)?;
    }
    put_manner(report, &form.model)?;
    put_delivery(report, &form.model)?;
    put_reports(report, &form.model)?;
    put_hex(report, b" body ", form.body.as_slice())
}

fn put_manner(report: &mut Octets, model: &Sms) -> Result<(), Memory> {
    report.extend_from_slice(b" from")?;
    put_address(report, &model.sender)?;
    report.extend_from_slice(coding_name(model.coding))?;
    if let Some(class) = model.class {
        put_named(report, b" class ", u64::from(class))?;
    }
    report.extend_from_slice(charset_name(model.charset))?;
    put_hex(report, b" udh ", model.udh.as_slice())
}

fn put_delivery(report: &mut Octets, model: &Sms) -> Result<(), Memory> {
    put_octets(report, b" smsc ", model.smsc.as_slice())?;
    put_named(report, b" validity ", u64::from(model.validity))?;
    put_named(report, b" deferred ", u64::from(model.deferred))
}

fn put_reports(report: &mut Octets, model: &Sms) -> Result<(), Memory> {
    put_named(report, b" mask ", u64::from(model.mask))?;
    put_octets(report, b" url ", model.url.as_slice())?;
    put_octets(report, b" account ", model.account.as_slice())
}
