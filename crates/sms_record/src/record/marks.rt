//! How a message is to be read, which part of a longer one it is, and which reports are asked for: an octet each.

ghost use Rattle.std.specs.Prelude.{◌≡◌, ◌++◌, OnOk, OnErr};
ghost use Rattle.exact_octets.specs.Reading.{Gives, value_of};
ghost use Rattle.sms_record.specs.Codes.{classes, class_code, charsets, charset_code};
ghost use Rattle.sms_record.specs.Record.{marks};
ghost use Rattle.sms_record.specs.RecordReading.{class_at as class_front, charset_at as charset_front, marks_at as marks_front};

use crate::coding::{code_of_coding, coding_at};
use crate::limits::{LAST_CLASS, MOST_MASK, MOST_PARTS};
use crate::{Coding, Sms};
use exact_octets::{ReadFault, any_octet_at, named, octet_at};
use kn_base::{Charset, Memory, Octets};

/// What stands where a message has no class.
const NO_CLASS: u8 = 0xFF;

/// The octets of a message that say how it is to be read.
#[derive(Clone, Copy)]
pub(crate) struct Marks {
    pub coding: Coding,
    pub class: Option<u8>,
    pub charset: Charset,
    pub total: u8,
    pub part: u8,
    pub mask: u8,
}

fn code_of_class(class: Option<u8>) -> u8
    ensures { result ≡ class_code class }
{
    class.unwrap_or(NO_CLASS)
}

fn class_of(code: u8) -> Option<Option<u8>>
    ensures { result ≡ value_of class_code classes code }
{
    match code {
        NO_CLASS => Some(None),
        0..=LAST_CLASS => Some(Some(code)),
        _ => None,
    }
}

fn code_of_charset(charset: Charset) -> u8
    ensures { result ≡ charset_code charset }
{
    match charset {
        Charset::Utf8 => 0,
        Charset::Latin1 => 1,
        Charset::Utf16Be => 2,
    }
}

fn charset_of(code: u8) -> Option<Charset>
    ensures { result ≡ value_of charset_code charsets code }
{
    match code {
        0 => Some(Charset::Utf8),
        1 => Some(Charset::Latin1),
        2 => Some(Charset::Utf16Be),
        _ => None,
    }
}

#[tactic(auto, unfolding(crate::specs::RecordReading::class_at))]
fn class_at(octets: &[u8]) -> Result<(Option<u8>, &[u8]), ReadFault>
    ensures { Gives (λ x. (x.0, x.1.now)) result (class_front octets.now) }
{
    let (code, rest) = any_octet_at(octets)?;
    named(class_of(code), rest)
}

#[tactic(auto, unfolding(crate::specs::RecordReading::charset_at))]
fn charset_at(octets: &[u8]) -> Result<(Charset, &[u8]), ReadFault>
    ensures { Gives (λ x. (x.0, x.1.now)) result (charset_front octets.now) }
{
    let (code, rest) = any_octet_at(octets)?;
    named(charset_of(code), rest)
}

/// Coding, class, charset, total, part and mask at the front.
#[tactic(auto, unfolding(crate::specs::RecordReading::marks_at))]
pub(crate) fn marks_at(octets: &[u8]) -> Result<(Marks, &[u8]), ReadFault>
    ensures { Gives (λ x. (x.0, x.1.now)) result (marks_front octets.now) }
{
    let (coding, rest) = coding_at(octets)?;
    let (class, rest) = class_at(rest)?;
    let (charset, rest) = charset_at(rest)?;
    let (total, rest) = octet_at(rest, 1, MOST_PARTS)?;
    let (part, rest) = octet_at(rest, 1, total)?;
    let (mask, rest) = octet_at(rest, 0, MOST_MASK)?;
    Ok((
        Marks {
            coding,
            class,
            charset,
            total,
            part,
            mask,
        },
        rest,
    ))
}

/// Puts the marks of a message last. After `Memory` nothing has changed.
pub(crate) fn put_marks(into: &mut Octets, sms: &Sms) -> Result<(), Memory>
    ensures ok { OnOk result (into.new ≡ into.old ++ marks sms.now) }
    ensures err { OnErr result (into.new ≡ into.old) }
{
    into.extend_from_slice(&[
        code_of_coding(sms.coding),
        code_of_class(sms.class),
        code_of_charset(sms.charset),
        sms.total,
        sms.part,
        sms.mask,
    ])
}
