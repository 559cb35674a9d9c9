//! The body of submit_sm (SMPP 3.4, 4.4.1) and deliver_sm (4.6.1). The room of each text is the least size of what stands behind it: TLVs may
//! make it any greater one.

ghost use Rattle.std.specs.Prelude.{◌≡◌, ◌≤◌, ◌++◌, ◌∷◌, [], length, IfErr, OnOk, OnErr};
ghost use Rattle.exact_octets.specs.Growth.{Keeps};
ghost use Rattle.exact_octets.specs.Reading.{Gives, IsOfOctets};
ghost use Rattle.exact_octets.specs.Spelling.{short};
ghost use Rattle.smpp_wire.specs.declared.row.Row.TheVariants as row;
ghost use Rattle.smpp_wire.specs.Command.{Message, fields_of};
ghost use Rattle.smpp_wire.specs.Grammar.{ended, party, IsOf, body as body_octets};
ghost use Rattle.smpp_wire.specs.Reading.{three_at as three_front, four_at as four_front, contents_at as contents_front, closing_at as closing_front, delivery_at as delivery_front, message_of as message_from, message_at as message_front};
ghost use Rattle.smpp_wire.specs.Parts.{party_tuple, contents_tuple, closing_tuple, delivery_tuple, contents_octets, closing_octets, delivery_octets};

use crate::Body;
use crate::party::{Party, party_at, put_party, two_at};
use crate::room::Room;
use crate::short_message::short_message_at;
use crate::text::{Sizes, put_text, text_at};
use crate::tlv::tlvs_at;
use exact_octets::{ReadFault, any_octet_at, put_short};
use kn_base::{Memory, Octets};

/// The destination and the fields behind it.
#[derive(Clone, Copy)]
struct Delivery<'a> {
    destination: Party<'a>,
    esm_class: u8,
    protocol_id: u8,
    priority_flag: u8,
    closing: Closing<'a>,
}

/// The fields from the times on.
#[derive(Clone, Copy)]
struct Closing<'a> {
    schedule_delivery_time: &'a [u8],
    validity_period: &'a [u8],
    contents: Contents<'a>,
}

/// The fields behind the times.
#[derive(Clone, Copy)]
struct Contents<'a> {
    registered_delivery: u8,
    replace_if_present_flag: u8,
    data_coding: u8,
    sm_default_msg_id: u8,
    short_message: &'a [u8],
    tlvs: &'a [u8],
}

fn three_at(octets: &[u8]) -> Result<((u8, (u8, u8)), &[u8]), ReadFault>
    ensures gives { Gives (λ x. (x.0, x.1.now)) result (three_front octets.now) }
    ensures no_memory { IfErr result IsOfOctets }
{
    let (first, rest) = any_octet_at(octets)?;
    let (others, rest) = two_at(rest)?;
    Ok(((first, others), rest))
}

fn four_at(octets: &[u8]) -> Result<((u8, (u8, (u8, u8))), &[u8]), ReadFault>
    ensures gives { Gives (λ x. (x.0, x.1.now)) result (four_front octets.now) }
    ensures no_memory { IfErr result IsOfOctets }
{
    let (first, rest) = any_octet_at(octets)?;
    let (others, rest) = three_at(rest)?;
    Ok(((first, others), rest))
}

/// The fields behind the times, which fill `left` octets.
#[tactic(auto, unfolding(crate::specs::Reading::contents_at))]
fn contents_at(octets: &[u8], left: usize) -> Result<(Contents, &[u8]), ReadFault>
    ensures gives { Gives (λ x. (contents_tuple x.0, x.1.now)) result (contents_front left octets.now) }
    ensures no_memory { IfErr result IsOfOctets }
{
    let ((registered_delivery, (replace_if_present_flag, (data_coding, sm_default_msg_id))), rest) =
        four_at(octets)?;
    let left = left.saturating_sub(4);
    let (short_message, rest) = short_message_at(rest, left)?;
    let (tlvs, rest) = tlvs_at(rest, left.saturating_sub(short_message.len() + 1))?;
    Ok((
        Contents {
            registered_delivery,
            replace_if_present_flag,
            data_coding,
            sm_default_msg_id,
            short_message,
            tlvs,
        },
        rest,
    ))
}

/// The fields from the times on, which fill `left` octets.
#[tactic(auto, unfolding(crate::specs::Reading::closing_at))]
fn closing_at(octets: &[u8], left: usize) -> Result<(Closing, &[u8]), ReadFault>
    ensures gives { Gives (λ x. (closing_tuple x.0, x.1.now)) result (closing_front left octets.now) }
    ensures no_memory { IfErr result IsOfOctets }
{
    let (schedule_delivery_time, rest) = text_at(octets, Sizes::times(), Room::From(6), left)?;
    let left = left.saturating_sub(schedule_delivery_time.len() + 1);
    let (validity_period, rest) = text_at(rest, Sizes::times(), Room::From(5), left)?;
    let left = left.saturating_sub(validity_period.len() + 1);
    let (contents, rest) = contents_at(rest, left)?;
    Ok((
        Closing {
            schedule_delivery_time,
            validity_period,
            contents,
        },
        rest,
    ))
}

/// The destination and the fields behind it, which fill `left` octets.
#[tactic(auto, unfolding(crate::specs::Reading::delivery_at))]
fn delivery_at(octets: &[u8], left: usize) -> Result<(Delivery, &[u8]), ReadFault>
    ensures gives { Gives (λ x. (delivery_tuple x.0, x.1.now)) result (delivery_front left octets.now) }
    ensures no_memory { IfErr result IsOfOctets }
{
    let (destination, rest) = party_at(octets, Room::From(10), left)?;
    let left = left.saturating_sub(destination.address.len() + 3);
    let ((esm_class, (protocol_id, priority_flag)), rest) = three_at(rest)?;
    let (closing, rest) = closing_at(rest, left.saturating_sub(3))?;
    Ok((
        Delivery {
            destination,
            esm_class,
            protocol_id,
            priority_flag,
            closing,
        },
        rest,
    ))
}

/// A message whose body fills `left` octets.
#[tactic(auto, unfolding(crate::specs::Reading::message_at))]
pub(crate) fn message_at(octets: &[u8], left: usize) -> Result<(Body, &[u8]), ReadFault>
    ensures gives { Gives (λ x. (fields_of x.0, x.1.now)) result (message_front left octets.now) }
    ensures no_memory { IfErr result IsOfOctets }
{
    let (service_type, rest) = text_at(octets, Sizes::up_to(6), Room::From(16), left)?;
    let left = left.saturating_sub(service_type.len() + 1);
    let (source, rest) = party_at(rest, Room::From(13), left)?;
    let left = left.saturating_sub(source.address.len() + 3);
    let (delivery, rest) = delivery_at(rest, left)?;
    Ok((message_of(service_type, source, delivery), rest))
}

fn message_of<'a>(service_type: &'a [u8], source: Party<'a>, delivery: Delivery<'a>) -> Body<'a>
    ensures { fields_of result ≡ Message (message_from (service_type.now, (party_tuple source.entry, delivery_tuple delivery.entry))) }
{
    let destination = delivery.destination;
    let closing = delivery.closing;
    let contents = closing.contents;
    Body::Message {
        service_type,
        source_ton: source.ton,
        source_npi: source.npi,
        source: source.address,
        destination_ton: destination.ton,
        destination_npi: destination.npi,
        destination: destination.address,
        esm_class: delivery.esm_class,
        protocol_id: delivery.protocol_id,
        priority_flag: delivery.priority_flag,
        schedule_delivery_time: closing.schedule_delivery_time,
        validity_period: closing.validity_period,
        registered_delivery: contents.registered_delivery,
        replace_if_present_flag: contents.replace_if_present_flag,
        data_coding: contents.data_coding,
        sm_default_msg_id: contents.sm_default_msg_id,
        short_message: contents.short_message,
        tlvs: contents.tlvs,
    }
}

/// Puts the fields behind the times last.
fn put_contents(into: &mut Octets, contents: &Contents) -> Result<(), Memory>
    requires { length contents.now.short_message.now ≤ 254 }
    ensures ok { OnOk result (into.new ≡ into.old ++ contents_octets contents.now) }
    ensures err { OnErr result (Keeps into.old into.new) }
{
    into.extend_from_slice(&[
        contents.registered_delivery,
        contents.replace_if_present_flag,
        contents.data_coding,
        contents.sm_default_msg_id,
    ])?;
    put_short(into, contents.short_message)?;
    into.extend_from_slice(contents.tlvs)
}

/// Puts the fields from the times on last.
fn put_closing(into: &mut Octets, closing: &Closing) -> Result<(), Memory>
    requires { length closing.now.contents.short_message.now ≤ 254 }
    ensures ok { OnOk result (into.new ≡ into.old ++ closing_octets closing.now) }
    ensures err { OnErr result (Keeps into.old into.new) }
{
    put_text(into, closing.schedule_delivery_time)?;
    put_text(into, closing.validity_period)?;
    put_contents(into, &closing.contents)
}

/// Puts the destination and the fields behind it last.
fn put_delivery(into: &mut Octets, delivery: &Delivery) -> Result<(), Memory>
    requires { length delivery.now.closing.contents.short_message.now ≤ 254 }
    ensures ok { OnOk result (into.new ≡ into.old ++ delivery_octets delivery.now) }
    ensures err { OnErr result (Keeps into.old into.new) }
{
    put_party(into, &delivery.destination)?;
    into.extend_from_slice(&[
        delivery.esm_class,
        delivery.protocol_id,
        delivery.priority_flag,
    ])?;
    put_closing(into, &delivery.closing)
}

/// Puts the body of a message last. After `Memory` the old octets still stand first.
pub(crate) fn put_message(into: &mut Octets, body: &Body) -> Result<(), Memory>
    requires { IsOf row.Message (fields_of body.now) }
    ensures ok { OnOk result (into.new ≡ into.old ++ body_octets (fields_of body.now)) }
    ensures err { OnErr result (Keeps into.old into.new) }
{
    let Body::Message {
        service_type,
        source_ton,
        source_npi,
        source,
        destination_ton,
        destination_npi,
        destination,
        esm_class,
        protocol_id,
        priority_flag,
        schedule_delivery_time,
        validity_period,
        registered_delivery,
        replace_if_present_flag,
        data_coding,
        sm_default_msg_id,
        short_message,
        tlvs,
    } = *body
    else {
        unreachable!()
    };
    let contents = Contents {
        registered_delivery,
        replace_if_present_flag,
        data_coding,
        sm_default_msg_id,
        short_message,
        tlvs,
    };
    let closing = Closing {
        schedule_delivery_time,
        validity_period,
        contents,
    };
    let delivery = Delivery {
        destination: Party {
            ton: destination_ton,
            npi: destination_npi,
            address: destination,
        },
        esm_class,
        protocol_id,
        priority_flag,
        closing,
    };
    let source = Party {
        ton: source_ton,
        npi: source_npi,
        address: source,
    };
    put_text(into, service_type)?;
    put_party(into, &source)?;
    put_delivery(into, &delivery)
}

/// How many octets the body of a message has.
pub(crate) fn message_len(body: &Body) -> usize
    requires of { IsOf row.Message (fields_of body.now) }
    requires short { length (body_octets (fields_of body.now)) ≤ 65520 }
    ensures { result ≡ length (body_octets (fields_of body.now)) }
{
    let Body::Message {
        service_type,
        source,
        destination,
        schedule_delivery_time,
        validity_period,
        short_message,
        tlvs,
        ..
    } = *body
    else {
        unreachable!()
    };
    let texts = service_type.len() + source.len() + destination.len();
    let times = schedule_delivery_time.len() + validity_period.len();
    17 + texts + times + short_message.len() + tlvs.len()
}
