//! The frame of what is said to a centre.

ghost use Rattle.std.specs.Prelude.{◌≡◌, ◌<◌, ◌^◌, IfOk};
ghost use Rattle.route_rules.specs.declared.link_kind.LinkKind.TheVariants.{Smpp};
ghost use Rattle.smpp_wire.specs.Command.{fields_of};
ghost use Rattle.smpp_wire.specs.Ids.{bind_transceiver as BIND};
ghost use Rattle.smpp_wire.specs.Grammar.{row_of, IsOf, IsCommand, frame};
ghost use Rattle.link_core.specs.Saying.{out_tag, MaySay};
ghost use Rattle.smpp_link.specs.Hearing.{Hears};
ghost use Rattle.smpp_link.specs.Saying as spec;

use crate::status::{INVALID_COMMAND, OK, QUEUE_FULL};
use crate::submitting::submit_frame;
use kn_base::{Memory, Octets};
use link_core::Out;
use smpp_wire::command::{
    BIND_TRANSCEIVER, DELIVER_SM_RESP, ENQUIRE_LINK, ENQUIRE_LINK_RESP, GENERIC_NACK, UNBIND_RESP,
};
use smpp_wire::{Body, Pdu, write_pdu};
use std::alloc::Global;

/// The frame of a command.
///
/// # Errors
/// `Memory`.
pub(crate) fn frame_of(
    alloc: Global,
    id: u32,
    status: u32,
    tag: u32,
    body: &Body,
) -> Result<Octets, Memory>
    requires { IsCommand (spec.command_with id status tag (fields_of body.now)) }
    ensures { IfOk result (λ octets. octets ≡ frame (spec.command_with id status tag (fields_of body.now))) }
{
    let mut octets = Octets::new(alloc);
    let pdu = Pdu {
        id,
        status,
        sequence: tag,
        body: *body,
    };
    write_pdu(&mut octets, &pdu)?;
    Ok(octets)
}

/// The frame of what is said, on a link that logs in with `bind`.
///
/// # Errors
/// `Memory`.
pub(crate) fn write_out(alloc: Global, bind: &Body, out: &Out) -> Result<Octets, Memory>
    requires login { IsOf (row_of BIND) (fields_of bind.now) }
    requires may { MaySay Smpp Hears out.now }
    requires tag { out_tag out.now < 2 ^ 32 }
    ensures { IfOk result (λ octets. octets ≡ frame (spec.command_of (fields_of bind.now) out.now)) }
{
    match out {
        Out::Login { tag } => frame_of(alloc, BIND_TRANSCEIVER, OK, *tag, bind),
        Out::Submit {
            tag,
            number,
            sms,
            now,
        } => submit_frame(alloc, *tag, *number, sms, *now),
        Out::ReportReply { tag } | Out::MessageReply { tag, good: true } => {
            frame_of(alloc, DELIVER_SM_RESP, OK, *tag, &Body::DeliverReply)
        }
        Out::MessageReply { tag, good: false } => {
            frame_of(
                alloc,
                DELIVER_SM_RESP,
                QUEUE_FULL,
                *tag,
                &Body::DeliverReply,
            )
        }
        Out::Keep { tag } => frame_of(alloc, ENQUIRE_LINK, OK, *tag, &Body::Nothing),
        Out::KeepReply { tag } => frame_of(alloc, ENQUIRE_LINK_RESP, OK, *tag, &Body::Nothing),
        Out::ByeReply { tag } => frame_of(alloc, UNBIND_RESP, OK, *tag, &Body::Nothing),
        Out::Nack { tag, .. } => {
            frame_of(alloc, GENERIC_NACK, INVALID_COMMAND, *tag, &Body::Nothing)
        }
    }
}
