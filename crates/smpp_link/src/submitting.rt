//! A message as a submit_sm (SMPP 3.4, 4.4.1).

ghost use Rattle.std.specs.Prelude.{◌≡◌, ◌<◌, ◌≤◌, ◌^◌, ◌++◌, IfOk, IfSome};
ghost use Rattle.route_rules.specs.declared.link_kind.LinkKind.TheVariants.{Smpp};
ghost use Rattle.smpp_wire.specs.Ids.{submit_sm as SUBMIT};
ghost use Rattle.smpp_wire.specs.Command.{Message, fields_of};
ghost use Rattle.smpp_wire.specs.Grammar.{frame};
ghost use Rattle.sms_record.specs.Record.{IsSms, address_text};
ghost use Rattle.link_core.specs.Saying.{IsSubmit};
ghost use Rattle.smpp_link.specs.Saying as spec;

use crate::period::validity_of;
use crate::saying::frame_of;
use crate::status::OK;
use concat_split::udh_of;
use kn_base::{Memory, Octets};
use link_core::dcs_of;
use smpp_wire::command::SUBMIT_SM;
use smpp_wire::{Body, Pdu};
use sms_record::{Address, Sms};
use std::alloc::Global;

/// The type of number and the numbering plan of an address (5.2.5, 5.2.6), and its digits or its text.
fn party_of(address: &Address) -> (u8, u8, &[u8])
    ensures ton { result.0 ≡ spec.ton_of address.now }
    ensures npi { result.1 ≡ spec.npi_of address.now }
    ensures text { result.2.now ≡ address_text address.now }
{
    match address {
        Address::Number { plus: true, digits } => (1, 1, digits.as_slice()),
        Address::Number {
            plus: false,
            digits,
        } => (0, 1, digits.as_slice()),
        Address::Text(text) => (5, 0, text.as_slice()),
    }
}

/// registered_delivery (5.2.17): a receipt is wanted where a report of kind 1, 2 or 4 is.
fn receipt_of(mask: u8) -> u8
    ensures { result ≡ spec.receipt_of mask }
{
    if mask % 8 == 0 { 0 } else { 1 }
}

/// esm_class (5.2.12), whose bit 6 says that a header stands before the text.
fn class_of(header: &[u8]) -> u8
    ensures { result ≡ spec.class_of header.now }
{
    if header.is_empty() { 0 } else { 0x40 }
}

/// The header that goes out with the body behind it, and esm_class.
fn text_of(alloc: Global, number: u64, sms: &Sms) -> Result<(u8, Octets), Memory>
    requires numbered { number < 2 ^ 63 }
    requires recorded { IsSms sms.now }
    ensures { IfOk result (λ x. x ≡ (spec.class_of (spec.header_in number sms.now), spec.header_in number sms.now ++ sms.now.body)) }
{
    let mut text = udh_of(alloc, sms, number)?;
    let esm_class = class_of(text.as_slice());
    text.extend_from_slice(sms.body.as_slice())?;
    Ok((esm_class, text))
}

/// The fields of a message, of which esm_class, short_message and validity_period were made before.
fn submit_of<'a>(
    sms: &'a Sms,
    esm_class: u8,
    short_message: &'a [u8],
    validity_period: &'a [u8],
) -> Body<'a>
    requires { IfSome sms.now.class (λ class. class ≤ 3) }
    ensures { fields_of result ≡ Message (spec.submit_with esm_class short_message.now validity_period.now sms.now) }
{
    let (source_ton, source_npi, source) = party_of(&sms.sender);
    let (destination_ton, destination_npi, destination) = party_of(&sms.receiver);
    Body::Message {
        service_type: &[],
        source_ton,
        source_npi,
        source,
        destination_ton,
        destination_npi,
        destination,
        esm_class,
        protocol_id: 0,
        priority_flag: 0,
        schedule_delivery_time: &[],
        validity_period,
        registered_delivery: receipt_of(sms.mask),
        replace_if_present_flag: 0,
        data_coding: dcs_of(sms.coding, sms.class),
        sm_default_msg_id: 0,
        short_message,
        tlvs: &[],
    }
}

/// The frame of a message at a reading of the clock.
///
/// # Errors
/// `Memory`.
pub(crate) fn submit_frame(
    alloc: Global,
    tag: u32,
    number: u64,
    sms: &Sms,
    now: u64,
) -> Result<Octets, Memory>
    requires { IsSubmit Smpp number sms.now now }
    ensures { IfOk result (λ octets. octets ≡ frame (spec.command_with SUBMIT 0 tag (Message (spec.submit_of number sms.now now)))) }
{
    let (esm_class, text) = text_of(alloc, number, sms)?;
    let period = validity_of(alloc, sms.time, sms.validity, now)?;
    let body = submit_of(sms, esm_class, text.as_slice(), period.as_slice());
    frame_of(alloc, SUBMIT_SM, OK, tag, &body)
}
