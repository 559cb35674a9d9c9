//! What a centre sends: messages and reports, as deliver_sm (SMPP 3.4, 4.6.1).

ghost use Rattle.std.specs.Prelude.{◌≡◌, ◌≤◌, ◌<◌, ◌^◌, length, IfOk, OnOk};
ghost use Rattle.smpp_wire.specs.Grammar.{IsText};
ghost use Rattle.fake_centre.specs.Saying.{AreFrames};

use crate::place::Place;
use crate::saying::{put_command, text_front};
use crate::status::OK;
use kn_base::{Memory, Octets};
use link_core::dcs_of;
use smpp_wire::Body;
use smpp_wire::command::DELIVER_SM;
use smpp_wire::limits::MOST_SHORT_MESSAGE;
use sms_record::{Address, Sms};
use std::alloc::Global;

/// The most octets of an address (SMPP 3.4, 4.6.1), without the 00 behind it.
const MOST_ADDRESS: usize = 20;
/// An international number (5.2.5).
const INTERNATIONAL: u8 = 1;
/// A text (5.2.5).
const ALPHANUMERIC: u8 = 5;
/// The numbering plan of telephones (5.2.6).
const TELEPHONE: u8 = 1;
/// The esm_class of a report (5.2.12).
const REPORT: u8 = 4;
/// The esm_class of a message with a header (5.2.12).
const WITH_HEADER: u8 = 0x40;

/// An address as a frame has it.
#[derive(Clone, Copy)]
struct Party<'a> {
    ton: u8,
    npi: u8,
    text: &'a [u8],
    ghost held: { IsText 21 text.now },
}

/// The address of nobody.
fn nobody<'a>() -> Party<'a> {
    Party {
        ton: 0,
        npi: 0,
        text: &[],
    }
}

/// An address as a frame can hold it.
fn party_of(address: &Address) -> Party {
    let (ton, npi, text) = match address {
        Address::Number { plus, digits } => {
            (if *plus { INTERNATIONAL } else { 0 }, TELEPHONE, digits)
        }
        Address::Text(text) => (ALPHANUMERIC, 0, text),
    };
    Party {
        ton,
        npi,
        text: text_front(text.as_slice(), MOST_ADDRESS),
    }
}

/// The first octets, as many as a short message holds.
fn short_front(octets: &[u8]) -> &[u8]
    ensures { length result.now ≤ 254 }
{
    let end = octets.len().min(usize::from(MOST_SHORT_MESSAGE));
    &octets[..end]
}

/// Puts a deliver_sm last.
#[tactic(auto, using(crate::proofs::Deliveries::delivery_good))]
fn put_delivery(
    into: &mut Octets,
    sequence: u32,
    parties: (Party, Party),
    esm_class: u8,
    data_coding: u8,
    octets: &[u8],
) -> Result<(), Memory>
    requires frames { AreFrames into.old }
    ensures frames { OnOk result (AreFrames into.new) }
{
    let (source, destination) = parties;
    let body = Body::Message {
        service_type: &[],
        source_ton: source.ton,
        source_npi: source.npi,
        source: source.text,
        destination_ton: destination.ton,
        destination_npi: destination.npi,
        destination: destination.text,
        esm_class,
        protocol_id: 0,
        priority_flag: 0,
        schedule_delivery_time: &[],
        validity_period: &[],
        registered_delivery: 0,
        replace_if_present_flag: 0,
        data_coding,
        sm_default_msg_id: 0,
        short_message: short_front(octets),
        tlvs: &[],
    };
    put_command(into, DELIVER_SM, OK, sequence, &body)
}

/// The header and the body of a message.
fn octets_of(alloc: Global, sms: &Sms) -> Result<Octets, Memory> {
    let mut octets = Octets::from_slice(alloc, sms.udh.as_slice())?;
    octets.extend_from_slice(sms.body.as_slice())?;
    Ok(octets)
}

/// Puts a message of the script last.
fn put_message(alloc: Global, into: &mut Octets, sequence: u32, sms: &Sms) -> Result<(), Memory>
    requires frames { AreFrames into.old }
    ensures frames { OnOk result (AreFrames into.new) }
{
    let octets = octets_of(alloc, sms)?;
    let esm_class = if sms.udh.is_empty() { 0 } else { WITH_HEADER };
    let class = sms.class.map(|class| class % 4);
    put_delivery(
        into,
        sequence,
        (party_of(&sms.sender), party_of(&sms.receiver)),
        esm_class,
        dcs_of(sms.coding, class),
        octets.as_slice(),
    )
}

/// Puts the messages of a script last.
pub(crate) fn put_messages(
    alloc: Global,
    into: &mut Octets,
    messages: &[Sms],
    place: Place,
) -> Result<Place, Memory>
    requires frames { AreFrames into.old }
    ensures frames { OnOk result (AreFrames into.new) }
{
    let mut place = place;
    for sms in messages {
        put_message(alloc, into, place.sequence, sms)?;
        place = place.behind_command();
    }
    Ok(place)
}

/// The words of a report: the id of the message that it is of, and its state (SMPP 3.4, appendix B).
fn words_of(alloc: Global, foreign: &Octets, state: &Octets) -> Result<Octets, Memory> {
    let mut words = Octets::from_slice(alloc, b"id:")?;
    words.extend_from_slice(foreign.as_slice())?;
    words.extend_from_slice(b" stat:")?;
    words.extend_from_slice(state.as_slice())?;
    Ok(words)
}

/// Puts a report last.
fn put_report(
    alloc: Global,
    into: &mut Octets,
    sequence: u32,
    foreign: &Octets,
    state: &Octets,
) -> Result<(), Memory>
    requires frames { AreFrames into.old }
    ensures frames { OnOk result (AreFrames into.new) }
{
    let words = words_of(alloc, foreign, state)?;
    put_delivery(
        into,
        sequence,
        (nobody(), nobody()),
        REPORT,
        0,
        words.as_slice(),
    )
}

/// Puts the reports last that come behind as many messages as were heard.
pub(crate) fn put_reports(
    alloc: Global,
    into: &mut Octets,
    reports: &[(u32, Octets, Octets)],
    place: Place,
) -> Result<Place, Memory>
    requires frames { AreFrames into.old }
    ensures frames { OnOk result (AreFrames into.new) }
{
    let mut place = place;
    for (behind, foreign, state) in reports {
        if *behind as usize == place.submits {
            put_report(alloc, into, place.sequence, foreign, state)?;
            place = place.behind_command();
        }
    }
    Ok(place)
}
