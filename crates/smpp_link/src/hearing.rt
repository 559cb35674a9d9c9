//! What a command of a centre says.

ghost use Rattle.std.specs.Prelude.{◌≡◌, IfOk};
ghost use Rattle.smpp_wire.specs.Command.{command_of, fields_of};
ghost use Rattle.smpp_wire.specs.Grammar.{IsOf, row_of};
ghost use Rattle.smpp_link.specs.Hearing as spec;

use crate::delivery::delivered;
use crate::status::{OK, is_temporary};
use kn_base::{Memory, Octets};
use link_core::{Heard, Verdict};
use smpp_wire::command::{
    BIND_TRANSCEIVER_RESP, DELIVER_SM, DELIVER_SM_RESP, ENQUIRE_LINK, ENQUIRE_LINK_RESP,
    GENERIC_NACK, SUBMIT_SM_RESP, UNBIND, UNBIND_RESP,
};
use smpp_wire::{Body, Pdu};
use std::alloc::Global;

/// The centre's id of a message, which an answer need not have.
fn foreign_in<'a>(body: &Body<'a>) -> &'a [u8]
    ensures { result.now ≡ spec.foreign_in (fields_of body.now) }
{
    match *body {
        Body::SubmitReply { message_id } => message_id,
        _ => &[],
    }
}

/// What the answer to a message says (4.4.2).
fn verdict_of(alloc: Global, status: u32, foreign: &[u8]) -> Result<Verdict, Memory>
    ensures { IfOk result (λ verdict. verdict ≡ spec.verdict_of status foreign.now) }
{
    if status == OK {
        let foreign = Octets::from_slice(alloc, foreign)?;
        return Ok(Verdict::Good { foreign });
    }
    Ok(if is_temporary(status) {
        Verdict::Temporary { code: status }
    } else {
        Verdict::Permanent { code: status }
    })
}

/// What the answer to a message is heard as.
fn replied(alloc: Global, tag: u32, status: u32, body: &Body) -> Result<Heard, Memory>
    ensures { IfOk result (λ heard. heard ≡ spec.replied tag status (fields_of body.now)) }
{
    let verdict = verdict_of(alloc, status, foreign_in(body))?;
    Ok(Heard::Reply { tag, verdict })
}

/// What is heard of a command that has nothing but its header for this side.
fn told(id: u32, tag: u32, status: u32) -> Heard
    ensures { result ≡ spec.told id tag status }
{
    match id {
        BIND_TRANSCEIVER_RESP => Heard::Login { tag, code: status },
        UNBIND => Heard::Bye { tag },
        UNBIND_RESP => Heard::ByeReply { tag },
        ENQUIRE_LINK => Heard::Keep { tag },
        ENQUIRE_LINK_RESP | DELIVER_SM_RESP => Heard::KeepReply { tag },
        GENERIC_NACK => Heard::Nack { tag, code: status },
        _ => Heard::Strange { tag, id },
    }
}

/// What a command is heard as.
///
/// # Errors
/// `Memory`.
pub(crate) fn heard_of(alloc: Global, pdu: &Pdu) -> Result<Heard, Memory>
    requires { IsOf (row_of pdu.now.id) (fields_of pdu.now.body) }
    ensures { IfOk result (λ heard. heard ≡ spec.heard_of (command_of pdu.now)) }
{
    match pdu.id {
        SUBMIT_SM_RESP => replied(alloc, pdu.sequence, pdu.status, &pdu.body),
        DELIVER_SM => delivered(alloc, pdu.sequence, &pdu.body),
        id => Ok(told(id, pdu.sequence, pdu.status)),
    }
}
