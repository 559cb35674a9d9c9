//! What the escapes of a request's URL stand for in a report.

ghost use Rattle.std.specs.Prelude.{◌≡◌, IfOk};
ghost use Rattle.sms_record.specs.Codes.{coding_code};
ghost use Rattle.route_rules.specs.Routes.{written as written_text};
ghost use Rattle.url_escapes.specs.Identity.{id_text};
ghost use Rattle.url_escapes.specs.Value.{first_word as first_of};
ghost use Rattle.url_escapes.specs.Words.{words as words_in};
ghost use Rattle.report_urls.specs.ReportUrl as spec;

use crate::mask::value_of_kind;
use crate::report::{Report, copy_two};
use kn_base::{Charset, Items, Memory, Octets};
use sms_record::{Address, Coding, Sms};
use std::alloc::Global;
use url_escapes::{Facts, first_word, internal_id, split_words};

/// What a coding is to an escape.
fn coding_value(coding: Coding) -> u8
    ensures { result ≡ coding_code coding }
{
    match coding {
        Coding::Seven => 0,
        Coding::Eight => 1,
        Coding::Ucs2 => 2,
    }
}

/// The name of a charset.
fn charset_name(charset: Charset) -> &'static [u8]
    ensures { result.now ≡ spec.charset_name charset }
{
    match charset {
        Charset::Utf8 => b"UTF-8",
        Charset::Latin1 => b"ISO-8859-1",
        Charset::Utf16Be => b"UTF-16BE",
    }
}

/// An address as it is written: a number with its plus.
fn written(alloc: Global, address: &Address) -> Result<Octets, Memory>
    ensures { IfOk result (λ text. text ≡ written_text address.now) }
{
    let mut text = Octets::new(alloc);
    match address {
        Address::Number { plus, digits } => {
            if *plus {
                text.push(b'+')?;
            }
            text.extend_from_slice(digits.as_slice())?;
        }
        Address::Text(octets) => text.extend_from_slice(octets.as_slice())?,
    }
    Ok(text)
}

/// From whom a message is, and to whom.
fn parties(alloc: Global, sms: &Sms) -> Result<(Octets, Octets), Memory>
    ensures { IfOk result (λ parties. (parties.0 ≡ written_text sms.now.sender) × (parties.1 ≡ written_text sms.now.receiver)) }
{
    let sender = written(alloc, &sms.sender)?;
    let receiver = written(alloc, &sms.receiver)?;
    Ok((sender, receiver))
}

/// The first word of a text, and all of them.
fn words_of(alloc: Global, text: &[u8]) -> Result<(Octets, Items<Octets>), Memory>
    ensures { IfOk result (λ found. (found.0 ≡ first_of (words_in text.now)) × (found.1 ≡ words_in text.now)) }
{
    let words = split_words(alloc, text)?;
    let keyword = Octets::from_slice(alloc, first_word(words.as_slice()))?;
    Ok((keyword, words))
}

/// The name of a message's charset, and its internal id.
fn labels(
    alloc: Global,
    birth: u64,
    number: u64,
    charset: Charset,
) -> Result<(Octets, Octets), Memory>
    ensures { IfOk result (λ labels. (labels.0 ≡ spec.charset_name charset) × (labels.1 ≡ id_text birth number)) }
{
    let charset = Octets::from_slice(alloc, charset_name(charset))?;
    let internal = internal_id(alloc, birth, number)?;
    Ok((charset, internal))
}

/// What is taken from a request as it is: the header, and the account.
fn kept(alloc: Global, sms: &Sms) -> Result<(Octets, Octets, Octets), Memory>
    ensures { IfOk result (λ kept. (kept.0 ≡ sms.now.service) × (kept.1 ≡ sms.now.udh) × (kept.2 ≡ sms.now.account)) }
{
    let name = Octets::from_slice(alloc, sms.service.as_slice())?;
    let (udh, account) = copy_two(alloc, &sms.udh, &sms.account)?;
    Ok((name, udh, account))
}

/// What escapes stand for in a report on the message of a number, in the store of this birth. `Memory`.
pub(crate) fn facts_of(
    alloc: Global,
    birth: u64,
    report: Report,
    number: u64,
    sms: &Sms,
) -> Result<Facts, Memory>
    ensures { IfOk result (λ facts. facts ≡ spec.report_facts birth report number sms.now) }
{
    let (keyword, words) = words_of(alloc, report.text.as_slice())?;
    let (sender, receiver) = parties(alloc, sms)?;
    let (charset, internal) = labels(alloc, birth, number, sms.charset)?;
    let (name, udh, account) = kept(alloc, sms)?;
    Ok(Facts {
        keyword,
        words,
        message: report.text,
        time: report.time,
        sender,
        receiver,
        smsc: report.smsc,
        internal,
        value: value_of_kind(report.kind),
        answer: report.answer,
        foreign: report.foreign,
        name,
        coding: coding_value(sms.coding),
        class: sms.class,
        charset,
        udh,
        account,
    })
}
