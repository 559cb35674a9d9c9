//! What a report of the centre says: a delivery receipt (SMPP 3.4, 4.6.1 and appendix B). Its optional parameters go first, and then the words of its text.

ghost use Rattle.std.specs.Prelude.{◌≡◌, take, drop, codes, option_copied, IfOk};
ghost use Rattle.smpp_wire.specs.Grammar.{AreTlvs};
ghost use Rattle.smpp_link.specs.Receipts as spec;
ghost use Rattle.smpp_link.specs.TlvTags.{receipted_message_id, message_state};

use kn_base::{Memory, Octets};
use link_core::Heard;
use smpp_wire::tlv_value;
use sms_record::Kind;
use std::alloc::Global;

/// The parameter with the centre's id of the message (5.3.2.12).
const RECEIPTED_MESSAGE_ID: u16 = 0x001E;
/// The parameter with what became of it (5.3.2.35).
const MESSAGE_STATE: u16 = 0x0427;
/// The most octets of a centre's id that are kept.
const MOST_ID: usize = 256;

/// A state (5.2.28): on its way.
const ENROUTE: u8 = 1;
/// A state: delivered.
const DELIVERED: u8 = 2;
/// A state: accepted, read for the subscriber.
const ACCEPTED: u8 = 6;
/// A state: not known.
const UNKNOWN: u8 = 7;

/// The value of the first parameter with a tag.
fn value_of(tlvs: &[u8], tag: u16) -> Option<&[u8]>
    requires { AreTlvs tlvs.now }
    ensures { option_copied result ≡ spec.value_in tag tlvs.now }
{
    tlv_value(tlvs, tag)
}

/// Whether an octet parts words.
fn is_blank(octet: u8) -> bool
    ensures { result ≡ spec.is_blank octet }
{
    octet == b' ' || octet == b'\t' || octet == b'\r' || octet == b'\n'
}

/// The first word of a text that begins with a name.
fn word_with<'a>(name: &[u8], text: &'a [u8]) -> Option<&'a [u8]>
    ensures { option_copied result ≡ spec.word_with name.now text.now }
{
    text.split(|octet| is_blank(*octet))
        .find(|word| word.starts_with(name))
}

/// What stands behind so many octets.
fn behind(octets: &[u8], len: usize) -> &[u8]
    ensures { result.now ≡ drop len octets.now }
{
    if octets.len() < len {
        &[]
    } else {
        &octets[len..]
    }
}

/// What stands behind a name in the first word of a text that begins with it.
fn word_behind<'a>(name: &[u8], text: &'a [u8]) -> Option<&'a [u8]>
    ensures { option_copied result ≡ spec.word_behind name.now text.now }
{
    match word_with(name, text) {
        Some(word) => Some(behind(word, name.len())),
        None => None,
    }
}

/// A text without the 00 that ends it.
fn without_end(text: &[u8]) -> &[u8]
    ensures { result.now ≡ spec.without_end text.now }
{
    if !text.is_empty() && text[text.len() - 1] == 0 {
        &text[..text.len() - 1]
    } else {
        text
    }
}

/// The centre's id of the message.
fn id_in<'a>(text: &'a [u8], tlvs: &'a [u8]) -> &'a [u8]
    requires { AreTlvs tlvs.now }
    ensures { result.now ≡ spec.id_of (spec.value_in receipted_message_id tlvs.now) (spec.word_behind (codes "id:") text.now) }
{
    match value_of(tlvs, RECEIPTED_MESSAGE_ID) {
        Some(id) => without_end(id),
        None => match word_behind(b"id:", text) {
            Some(word) => word,
            None => &[],
        },
    }
}

/// What a state says (5.2.28).
fn kind_of_number(state: u8) -> Kind
    ensures { result ≡ spec.kind_of_number state }
{
    match state {
        DELIVERED => Kind::Delivered,
        ENROUTE | ACCEPTED | UNKNOWN => Kind::Buffered,
        _ => Kind::Undelivered,
    }
}

fn kind_of_state(state: &[u8]) -> Kind
    ensures { result ≡ spec.kind_of_state state.now }
{
    match state {
        [state] => kind_of_number(*state),
        _ => Kind::Undelivered,
    }
}

/// What the word of a state says (appendix B).
fn kind_of_word(word: &[u8]) -> Kind
    ensures { result ≡ spec.kind_of_word word.now }
{
    if word == b"DELIVRD".as_slice() {
        Kind::Delivered
    } else if word == b"ACCEPTD".as_slice() || word == b"UNKNOWN".as_slice() {
        Kind::Buffered
    } else {
        Kind::Undelivered
    }
}

/// What became of the message.
fn kind_in(text: &[u8], tlvs: &[u8]) -> Kind
    requires { AreTlvs tlvs.now }
    ensures { result ≡ spec.kind_of (spec.value_in message_state tlvs.now) (spec.word_behind (codes "stat:") text.now) }
{
    match value_of(tlvs, MESSAGE_STATE) {
        Some(state) => kind_of_state(state),
        None => match word_behind(b"stat:", text) {
            Some(word) => kind_of_word(word),
            None => Kind::Buffered,
        },
    }
}

/// The first octets, so many at most.
fn front(octets: &[u8], most: usize) -> &[u8]
    ensures { result.now ≡ take most octets.now }
{
    if octets.len() <= most {
        octets
    } else {
        &octets[..most]
    }
}

/// What a report with this text and these optional parameters is heard as.
///
/// # Errors
/// `Memory`.
pub(crate) fn reported(alloc: Global, tag: u32, text: &[u8], tlvs: &[u8]) -> Result<Heard, Memory>
    requires { AreTlvs tlvs.now }
    ensures { IfOk result (λ heard. heard ≡ spec.reported tag text.now tlvs.now) }
{
    let foreign = Octets::from_slice(alloc, front(id_in(text, tlvs), MOST_ID))?;
    let kind = kind_in(text, tlvs);
    let text = Octets::from_slice(alloc, text)?;
    Ok(Heard::Report {
        tag,
        foreign,
        kind,
        text,
    })
}
