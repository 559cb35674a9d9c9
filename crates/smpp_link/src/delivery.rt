//! What a deliver_sm (SMPP 3.4, 4.6.1) is heard as.

ghost use Rattle.std.specs.Prelude.{◌≡◌, ◌≤◌, length, take, drop, IfOk};
ghost use Rattle.std.specs.List.{flat_map};
ghost use Rattle.gsm_alphabet.specs.Alphabet.{septets_of};
ghost use Rattle.smpp_wire.specs.Command.{fields_of};
ghost use Rattle.smpp_wire.specs.Grammar.{IsOf, row_of};
ghost use Rattle.smpp_wire.specs.Ids.{deliver_sm};
ghost use Rattle.link_core.specs.Arrivals.{address_of, body_of};
ghost use Rattle.smpp_link.specs.Delivery as spec;

use crate::receipt::reported;
use concat_split::read_udh;
use gsm_alphabet::{CharsetFault, from_charset, to_gsm};
use kn_base::{Charset, Memory, Octets};
use link_core::{Heard, arrival, heard_address, heard_body, read_dcs};
use smpp_wire::Body;
use smpp_wire::command::DELIVER_SM;
use sms_record::limits::MOST_HEADER;
use sms_record::{Address, Coding};
use std::alloc::Global;

/// The type of an international number (5.2.5).
const INTERNATIONAL: u8 = 1;
/// Text in IA5, which is ISO-8859-1 but for a few characters (5.2.19).
const IA5: u8 = 1;
/// Octets (5.2.19).
const OCTETS: u8 = 2;
/// Text in ISO-8859-1 (5.2.19).
const LATIN_1: u8 = 3;

/// Whether bits 5 to 2 of esm_class (5.2.12) say that this is a delivery receipt of the centre.
fn is_report(esm_class: u8) -> bool
    ensures { result ≡ spec.is_report esm_class }
{
    esm_class / 4 % 16 == 1
}

/// Whether bit 6 of esm_class says that a header stands before the text.
fn says_header(esm_class: u8) -> bool
    ensures { result ≡ spec.says_header esm_class }
{
    esm_class / 64 % 2 == 1
}

/// How many octets the header at the front has, where one of at most 140 stands there, and else 0.
fn header_len(octets: &[u8]) -> usize
    ensures within { result ≤ length octets.now }
    ensures parts { (take result octets.now, drop result octets.now) ≡ spec.part_header octets.now }
{
    let [count, ..] = octets else {
        return 0;
    };
    let len = usize::from(*count) + 1;
    if len > usize::from(MOST_HEADER) {
        return 0;
    }
    if len > octets.len() {
        return 0;
    }
    if read_udh(&octets[..len]).is_err() {
        return 0;
    }
    len
}

fn header_and_text(esm_class: u8, octets: &[u8]) -> (&[u8], &[u8])
    ensures { (result.0.now, result.1.now) ≡ spec.header_and_text esm_class octets.now }
{
    if says_header(esm_class) {
        octets.split_at(header_len(octets))
    } else {
        octets.split_at(0)
    }
}

/// The septets of octets that are characters of ISO-8859-1.
fn septets_of_latin(alloc: Global, octets: &[u8]) -> Result<Octets, Memory>
    ensures { IfOk result (λ septets. septets ≡ flat_map septets_of octets.now) }
{
    match from_charset(alloc, octets, Charset::Latin1) {
        Ok(text) => to_gsm(alloc, text.as_str()),
        Err(CharsetFault::Memory) => Err(Memory),
        Err(_) => unreachable!(),
    }
}

/// The text, as the message's coding has it.
fn text_of(alloc: Global, data_coding: u8, octets: &[u8]) -> Result<Octets, Memory>
    ensures { IfOk result (λ text. text ≡ spec.text_of data_coding octets.now) }
{
    if data_coding == IA5 || data_coding == LATIN_1 {
        septets_of_latin(alloc, octets)
    } else {
        Octets::from_slice(alloc, octets)
    }
}

fn coding_of(data_coding: u8) -> Coding
    ensures { result ≡ spec.coding_of data_coding }
{
    if data_coding == OCTETS {
        Coding::Eight
    } else {
        read_dcs(data_coding).0
    }
}

fn body_of(alloc: Global, data_coding: u8, octets: &[u8]) -> Result<Octets, Memory>
    ensures { IfOk result (λ body. body ≡ body_of (spec.coding_of data_coding) (spec.text_of data_coding octets.now)) }
{
    let text = text_of(alloc, data_coding, octets)?;
    heard_body(alloc, coding_of(data_coding), text.as_slice())
}

fn address_of(alloc: Global, ton: u8, text: &[u8]) -> Result<Address, Memory>
    ensures { IfOk result (λ address. address ≡ address_of (spec.is_international ton) text.now) }
{
    heard_address(alloc, ton == INTERNATIONAL, text)
}

/// From whom a message comes, and to whom: of each the type of its number and its text.
fn parties_of(
    alloc: Global,
    source_ton: u8,
    source: &[u8],
    destination_ton: u8,
    destination: &[u8],
) -> Result<(Address, Address), Memory>
    ensures { IfOk result (λ parties. parties ≡ (address_of (spec.is_international source_ton) source.now, address_of (spec.is_international destination_ton) destination.now)) }
{
    let sender = address_of(alloc, source_ton, source)?;
    let receiver = address_of(alloc, destination_ton, destination)?;
    Ok((sender, receiver))
}

fn contents_of(
    alloc: Global,
    data_coding: u8,
    header: &[u8],
    text: &[u8],
) -> Result<(Octets, Octets), Memory>
    ensures { IfOk result (λ contents. contents ≡ (header.now, body_of (spec.coding_of data_coding) (spec.text_of data_coding text.now))) }
{
    let header = Octets::from_slice(alloc, header)?;
    let body = body_of(alloc, data_coding, text)?;
    Ok((header, body))
}

/// What the body of a deliver_sm is heard as: a report of the centre, or a message.
///
/// # Errors
/// `Memory`.
pub(crate) fn delivered(alloc: Global, tag: u32, body: &Body) -> Result<Heard, Memory>
    requires { IsOf (row_of deliver_sm) (fields_of body.now) }
    ensures { IfOk result (λ heard. heard ≡ spec.delivered tag (fields_of body.now)) }
{
    match *body {
        Body::Message {
            source_ton,
            source,
            destination_ton,
            destination,
            esm_class,
            data_coding,
            short_message,
            tlvs,
            ..
        } => {
            if is_report(esm_class) {
                return reported(alloc, tag, short_message, tlvs);
            }
            let (header, text) = header_and_text(esm_class, short_message);
            let parties = parties_of(alloc, source_ton, source, destination_ton, destination)?;
            let (header, body) = contents_of(alloc, data_coding, header, text)?;
            let (coding, class) = (coding_of(data_coding), read_dcs(data_coding).1);
            let sms = arrival(alloc, parties, coding, class, header, body);
            Ok(Heard::Message { tag, sms })
        }
        _ => Ok(Heard::Strange {
            tag,
            id: DELIVER_SM,
        }),
    }
}
