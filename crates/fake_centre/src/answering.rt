//! What a centre says to the frames that it hears.

ghost use Rattle.std.specs.Prelude.{◌≡◌, ◌≤◌, ◌++◌, length, IfOk, OnOk};
ghost use Rattle.smpp_wire.specs.Command.{SubmitReply};
ghost use Rattle.smpp_wire.specs.Grammar.{IsText, frame};
ghost use Rattle.smpp_wire.specs.Ids.{submit_sm_resp};
ghost use Rattle.fake_centre.specs.Saying.{AreFrames, AnswersSubmit, command_with};

use crate::delivering::{put_messages, put_reports};
use crate::place::{Phase, Place};
use crate::saying::{put_command, put_plain, text_front};
use crate::status::{ALREADY_BOUND, OK, UNKNOWN_COMMAND, WRONG_STATE};
use crate::{CentreReply, Script};
use kn_base::{Memory, Octets, write_decimal};
use smpp_wire::command::{
    BIND_TRANSCEIVER, BIND_TRANSCEIVER_RESP, ENQUIRE_LINK, ENQUIRE_LINK_RESP, GENERIC_NACK,
    SUBMIT_SM, SUBMIT_SM_RESP, UNBIND, UNBIND_RESP,
};
use smpp_wire::{Body, Frame, Pdu, read_frame};
use std::alloc::Global;

/// The most octets of an id (SMPP 3.4, 4.4.2), without the 00 behind it.
const MOST_ID: usize = 64;
/// The ids of answers begin here.
const ANSWERS: u32 = 0x8000_0000;

/// Answers a good login, and says what comes behind it.
fn welcome(
    alloc: Global,
    script: &Script,
    place: Place,
    sequence: u32,
    into: &mut Octets,
) -> Result<Place, Memory>
    requires frames { AreFrames into.old }
    ensures frames { OnOk result (AreFrames into.new) }
{
    let body = Body::BindReply {
        system_id: b"centre",
        tlvs: &[],
    };
    put_command(into, BIND_TRANSCEIVER_RESP, OK, sequence, &body)?;
    let place = put_messages(alloc, into, script.messages.as_slice(), place)?;
    put_reports(alloc, into, script.reports.as_slice(), place)
}

/// Answers a login.
fn answer_login(
    alloc: Global,
    script: &Script,
    place: Place,
    sequence: u32,
    into: &mut Octets,
) -> Result<Place, Memory>
    requires frames { AreFrames into.old }
    ensures frames { OnOk result (AreFrames into.new) }
{
    if place.phase != Phase::New {
        put_plain(into, BIND_TRANSCEIVER_RESP, ALREADY_BOUND, sequence)?;
        return Ok(place);
    }
    if script.login != OK {
        put_plain(into, BIND_TRANSCEIVER_RESP, script.login, sequence)?;
        return Ok(place.in_phase(Phase::Over));
    }
    welcome(alloc, script, place.in_phase(Phase::Open), sequence, into)
}

/// Says that a message was taken, under an id.
#[tactic(auto, using(crate::proofs::Commands::answer_good))]
fn put_taken(into: &mut Octets, sequence: u32, id: &[u8]) -> Result<(), Memory>
    requires frames { AreFrames into.old }
    ensures frames { OnOk result (AreFrames into.new) }
    ensures says { OnOk result (IsText 65 id.now → into.new ≡ into.old ++ frame (command_with submit_sm_resp 0 sequence (SubmitReply id.now))) }
{
    let message_id = text_front(id, MOST_ID);
    put_command(
        into,
        SUBMIT_SM_RESP,
        OK,
        sequence,
        &Body::SubmitReply { message_id },
    )
}

/// Answers a message as the script says.
fn put_reply(into: &mut Octets, sequence: u32, reply: &CentreReply) -> Result<(), Memory>
    requires frames { AreFrames into.old }
    ensures frames { OnOk result (AreFrames into.new) }
    ensures says { OnOk result (AnswersSubmit sequence reply.now into.old into.new) }
{
    match reply {
        CentreReply::Good(id) => put_taken(into, sequence, id.as_slice()),
        CentreReply::Refuse(status) => put_plain(into, SUBMIT_SM_RESP, *status, sequence),
        CentreReply::Silent => Ok(()),
    }
}

/// Takes a message for which the script has no answer left, under the id `A` and its number.
fn put_numbered(
    alloc: Global,
    into: &mut Octets,
    sequence: u32,
    number: usize,
) -> Result<(), Memory>
    requires frames { AreFrames into.old }
    ensures frames { OnOk result (AreFrames into.new) }
{
    let mut id = Octets::from_slice(alloc, b"A")?;
    write_decimal(&mut id, number as u64)?;
    put_taken(into, sequence, id.as_slice())
}

/// Answers a message, and says the reports that come behind it.
fn answer_message(
    alloc: Global,
    script: &Script,
    place: Place,
    sequence: u32,
    into: &mut Octets,
) -> Result<Place, Memory>
    requires frames { AreFrames into.old }
    ensures frames { OnOk result (AreFrames into.new) }
{
    if place.phase != Phase::Open {
        put_plain(into, SUBMIT_SM_RESP, WRONG_STATE, sequence)?;
        return Ok(place);
    }
    let answered = place.behind_message();
    match script.replies.get(place.submits) {
        Some(reply) => put_reply(into, sequence, reply)?,
        None => put_numbered(alloc, into, sequence, answered.submits)?,
    }
    put_reports(alloc, into, script.reports.as_slice(), answered)
}

/// Answers a command, where it asks for an answer.
fn answer(
    alloc: Global,
    script: &Script,
    place: Place,
    pdu: &Pdu,
    into: &mut Octets,
) -> Result<Place, Memory>
    requires frames { AreFrames into.old }
    ensures frames { OnOk result (AreFrames into.new) }
{
    match pdu.id {
        BIND_TRANSCEIVER => answer_login(alloc, script, place, pdu.sequence, into),
        SUBMIT_SM => answer_message(alloc, script, place, pdu.sequence, into),
        ENQUIRE_LINK => {
            put_plain(into, ENQUIRE_LINK_RESP, OK, pdu.sequence)?;
            Ok(place)
        }
        UNBIND => {
            put_plain(into, UNBIND_RESP, OK, pdu.sequence)?;
            Ok(place.in_phase(Phase::Over))
        }
        id if id < ANSWERS => {
            put_plain(into, GENERIC_NACK, UNKNOWN_COMMAND, pdu.sequence)?;
            Ok(place)
        }
        _ => Ok(place),
    }
}

/// Answers each whole frame at the front, in order, and says how many octets these have. Behind octets that are no frame, and behind
/// the end of the session, nothing more is heard.
#[tactic(auto, using(crate::proofs::Commands::whole_within))]
pub(crate) fn answer_all(
    alloc: Global,
    script: &Script,
    place: Place,
    octets: &[u8],
    into: &mut Octets,
) -> Result<(Place, usize), Memory>
    requires frames { AreFrames into.old }
    ensures frames { OnOk result (AreFrames into.new) }
    ensures within { IfOk result (λ done. done.1 ≤ length octets.now) }
{
    let mut place = place;
    let mut rest = octets;
    for _ in 0..octets.len() {
        if place.phase == Phase::Over {
            return Ok((place, octets.len()));
        }
        match read_frame(rest) {
            Frame::Whole { pdu, len } => {
                place = answer(alloc, script, place, &pdu, into)?;
                rest = &rest[len..];
            }
            Frame::NeedMore => break,
            Frame::Bad { .. } => place = place.in_phase(Phase::Over),
        }
    }
    Ok((place, octets.len() - rest.len()))
}
