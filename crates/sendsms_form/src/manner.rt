//! How a message is to be read: its coding, its class, its charset and its header.

ghost use Rattle.std.specs.Prelude.{◌≡◌, ◌⊎◌, ◌≤◌, Ok, Err, OnOk, IfErr, IfSome, length};
ghost use Rattle.sendsms_form.specs.Form as form;
ghost use Rattle.sendsms_form.specs.Variables as spec;
ghost use Rattle.sendsms_form.specs.Variables.{RefusesAs};

use crate::Pair;
use crate::header::is_header;
use crate::variable::{number_given, value_of};
use http_text::{Answer, Spot};
use kn_base::{Charset, Octets};
use sms_record::limits::LAST_CLASS;
use sms_record::{Coding, Sms};
use std::alloc::Global;

/// The most octets of a header that a request gives.
const MOST_HEADER: usize = 60;

/// Reads `coding`, `mclass`, `charset` and `udh` into a message.
#[tactic(auto, unfolding(crate::specs::Form::manner_of))]
pub(crate) fn set_manner(alloc: Global, pairs: &[Pair], sms: &mut Sms) -> Result<(), Answer>
    ensures ok { OnOk result (form.manner_of pairs.now sms.old ≡ Ok sms.new) }
    ensures err { RefusesAs (form.manner_of pairs.now sms.old) result }
{
    let udh = value_of(pairs, Spot::Udh);
    sms.coding = coding_by(number_given(pairs, Spot::Coding, 0, 2)?, udh);
    sms.class = class_of(number_given(pairs, Spot::Mclass, 0, u64::from(LAST_CLASS))?);
    let Some(charset) = charset_of(sms.coding, value_of(pairs, Spot::Charset)) else {
        return Err(Answer::BadRequest(Spot::Charset));
    };
    if !is_udh(udh) {
        return Err(Answer::BadRequest(Spot::Udh));
    }
    sms.charset = charset;
    sms.udh = Octets::from_slice(alloc, udh)?;
    Ok(())
}

// The coding by its number; without one by whether there is a header.
fn coding_by(number: Option<u32>, udh: &[u8]) -> Coding
    ensures { result ≡ spec.coding_by number udh.now }
{
    match number {
        Some(0) => Coding::Seven,
        Some(1) => Coding::Eight,
        Some(_) => Coding::Ucs2,
        None if udh.is_empty() => Coding::Seven,
        None => Coding::Eight,
    }
}

// The class of a number of the table.
fn class_of(number: Option<u32>) -> Option<u8>
    requires { IfSome number (λ n. n ≤ 3) }
    ensures { result ≡ number }
{
    match number {
        Some(number) => Some(number as u8),
        None => None,
    }
}

// The charset of a text that names none.
fn charset_unless_given(coding: Coding) -> Charset
    ensures { result ≡ spec.charset_unless_given coding }
{
    match coding {
        Coding::Seven | Coding::Eight => Charset::Utf8,
        Coding::Ucs2 => Charset::Utf16Be,
    }
}

fn charset_named(name: &[u8]) -> Option<Charset>
    ensures { result ≡ spec.charset_named name.now }
{
    if name.eq_ignore_ascii_case(b"UTF-8") {
        Some(Charset::Utf8)
    } else if name.eq_ignore_ascii_case(b"ISO-8859-1") {
        Some(Charset::Latin1)
    } else if name.eq_ignore_ascii_case(b"UTF-16BE") {
        Some(Charset::Utf16Be)
    } else {
        None
    }
}

fn charset_of(coding: Coding, value: &[u8]) -> Option<Charset>
    ensures { result ≡ spec.charset_of coding value.now }
{
    if value.is_empty() {
        Some(charset_unless_given(coding))
    } else {
        charset_named(value)
    }
}

// Whether octets are a header that a request may give, or none.
fn is_udh(value: &[u8]) -> bool
    ensures { result ≡ spec.is_udh value.now }
{
    value.len() <= MOST_HEADER && is_header(value)
}
