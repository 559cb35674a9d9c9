//! Templates with what their escapes stand for, and internal ids.

use kn_base::{Items, Memory, Octets};
use line_cases::{cut_at, cut_item, number, octet, octets_of, put_text, words_of};
use std::alloc::Global;
use url_escapes::{Facts, Style, expand, internal_id};

/// The first second for which no date is written.
const TIME_END: u64 = 1 << 37;

/// Facts without texts.
fn empty_facts(alloc: Global) -> Facts {
    Facts {
        keyword: Octets::new(alloc),
        words: Items::new(alloc),
        message: Octets::new(alloc),
        time: 0,
        sender: Octets::new(alloc),
        receiver: Octets::new(alloc),
        smsc: Octets::new(alloc),
        internal: Octets::new(alloc),
        value: 0,
        answer: Octets::new(alloc),
        foreign: Octets::new(alloc),
        name: Octets::new(alloc),
        coding: 0,
        class: None,
        charset: Octets::new(alloc),
        udh: Octets::new(alloc),
        account: Octets::new(alloc),
    }
}

/// Puts a text in each field that no line names.
fn put_texts(facts: &mut Facts) -> Result<(), Memory> {
    facts.receiver.extend_from_slice(b"0035840")?;
    facts.smsc.extend_from_slice(b"c1/a")?;
    facts.answer.extend_from_slice(b"err:000")?;
    facts.foreign.extend_from_slice(b"7F=1")?;
    facts.name.extend_from_slice(b"shop")?;
    facts.charset.extend_from_slice(b"UTF-8")?;
    facts.udh.extend_from_slice(&[5, 0, 3, 7, 2, 1])?;
    facts.account.extend_from_slice(b"a&b")
}

/// Puts the message and its words.
fn put_message(alloc: Global, facts: &mut Facts, message: &[u8]) -> Result<(), Memory> {
    facts.message.extend_from_slice(message)?;
    for word in words_of(alloc, message)?.iter() {
        if !word.is_empty() {
            facts.words.push(Octets::from_slice(alloc, word)?)?;
        }
    }
    match facts.words.as_slice().first() {
        Some(word) => facts.keyword.extend_from_slice(word.as_slice()),
        None => Ok(()),
    }
}

/// Puts the numbers. One number is the value, the coding and the class, and `-` is no class.
fn put_numbers(facts: &mut Facts, time: &[u8], one: &[u8]) {
    facts.time = number(time);
    facts.value = octet(one);
    facts.coding = octet(one);
    if one != b"-".as_slice() {
        facts.class = Some(octet(one));
    }
}

/// Puts a template last, with its escapes by the facts.
fn put_expanded(
    alloc: Global,
    template: &[u8],
    facts: &Facts,
    style: Style,
    report: &mut Octets,
) -> Result<(), Memory> {
    if facts.time >= TIME_END {
        return report.extend_from_slice(b"no case");
    }
    let text = expand(alloc, template, facts, style)?;
    put_text(report, text.as_slice())
}

fn style_of(text: &[u8]) -> Style {
    if text == b"url".as_slice() {
        Style::Url
    } else {
        Style::Plain
    }
}

/// Puts the texts of a line in their fields.
fn put_line(alloc: Global, facts: &mut Facts, sender: &[u8], message: &[u8]) -> Result<(), Memory> {
    facts
        .sender
        .extend_from_slice(octets_of(alloc, sender)?.as_slice())?;
    let message = octets_of(alloc, message)?;
    put_message(alloc, facts, message.as_slice())
}

/// `template STYLE TIME NUMBER SENDER | MESSAGE | TEMPLATE`: a template by the facts of a line and by others that are always the same:
/// receiver `0035840`, SMSC id `c1/a`, answer `err:000`, foreign id `7F=1`, name `shop`, charset `UTF-8`, a header of six octets and
/// account `a&b`, and the id of the first message of the store that was born at 1.
pub fn put_template(alloc: Global, text: &[u8], report: &mut Octets) -> Result<(), Memory> {
    let (how, text) = cut_item(text);
    let (message, template) = cut_item(text);
    let (style, how) = cut_at(how, b' ');
    let (time, how) = cut_at(how, b' ');
    let (one, sender) = cut_at(how, b' ');
    let mut facts = empty_facts(alloc);
    put_texts(&mut facts)?;
    put_numbers(&mut facts, time, one);
    put_line(alloc, &mut facts, sender, message)?;
    facts.internal = internal_id(alloc, 1, 1)?;
    let template = octets_of(alloc, template)?;
    put_expanded(alloc, template.as_slice(), &facts, style_of(style), report)
}

/// `internal-id BIRTH NUMBER`: the text of an id.
pub fn put_internal_id(alloc: Global, text: &[u8], report: &mut Octets) -> Result<(), Memory> {
    let (birth, message) = cut_at(text, b' ');
    let id = internal_id(alloc, number(birth), number(message))?;
    put_text(report, id.as_slice())
}
