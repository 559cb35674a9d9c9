//! Bodies, by the row of their command.

ghost use Rattle.std.specs.Prelude.{◌≡◌, ◌≤◌, ◌++◌, length, IfErr, OnOk, OnErr};
ghost use Rattle.exact_octets.specs.Growth.{Keeps};
ghost use Rattle.exact_octets.specs.Reading.{Gives, IsOfOctets};
ghost use Rattle.smpp_wire.specs.declared.row.Row.{Row};
ghost use Rattle.smpp_wire.specs.Command.{fields_of};
ghost use Rattle.smpp_wire.specs.Grammar.{IsOf, row_of, body as body_octets};
ghost use Rattle.smpp_wire.specs.Reading.{body_at as body_front};

mod any;
mod bind;
mod bind_reply;
mod deliver_reply;
mod message;
mod submit_reply;

use crate::Body;
use crate::row::Row;
use any::{any_body_at, put_any_body};
use bind::{bind_at, put_bind};
use bind_reply::{bind_reply_at, put_bind_reply};
use deliver_reply::{deliver_reply_at, put_deliver_reply};
use exact_octets::ReadFault;
use kn_base::{Memory, Octets};
use message::{message_at, message_len, put_message};
use submit_reply::{put_submit_reply, submit_reply_at};

/// A body of a row that fills `left` octets.
pub(crate) fn body_at(octets: &[u8], row: Row, left: usize) -> Result<(Body, &[u8]), ReadFault>
    ensures gives { Gives (λ x. (fields_of x.0, x.1.now)) result (body_front row left octets.now) }
    ensures no_memory { IfErr result IsOfOctets }
{
    match row {
        Row::Bind => bind_at(octets, left),
        Row::BindReply => bind_reply_at(octets, left),
        Row::Message => message_at(octets, left),
        Row::SubmitReply => submit_reply_at(octets, left),
        Row::DeliverReply => deliver_reply_at(octets),
        Row::Nothing => Ok((Body::Nothing, octets)),
        Row::Any => any_body_at(octets, left),
    }
}

/// Puts the body of a command last. After `Memory` the old octets still stand first.
pub(crate) fn put_body(into: &mut Octets, id: u32, body: &Body) -> Result<(), Memory>
    requires { IsOf (row_of id) (fields_of body.now) }
    ensures ok { OnOk result (into.new ≡ into.old ++ body_octets (fields_of body.now)) }
    ensures err { OnErr result (Keeps into.old into.new) }
{
    match *body {
        Body::Bind { .. } => put_bind(into, body),
        Body::BindReply { system_id, tlvs } => put_bind_reply(into, system_id, tlvs),
        Body::Message { .. } => put_message(into, body),
        Body::SubmitReply { message_id } => put_submit_reply(into, message_id),
        Body::DeliverReply => put_deliver_reply(into),
        Body::Nothing => Ok(()),
        Body::Any(octets) => put_any_body(into, octets),
    }
}

/// How many octets a body has.
pub(crate) fn body_len(id: u32, body: &Body) -> usize
    requires of { IsOf (row_of id) (fields_of body.now) }
    requires short { length (body_octets (fields_of body.now)) ≤ 65520 }
    ensures { result ≡ length (body_octets (fields_of body.now)) }
{
    match *body {
        Body::Bind {
            system_id,
            password,
            system_type,
            address_range,
            ..
        } => 7 + system_id.len() + password.len() + system_type.len() + address_range.len(),
        Body::BindReply { system_id, tlvs } => 1 + system_id.len() + tlvs.len(),
        Body::Message { .. } => message_len(body),
        Body::SubmitReply { message_id } => 1 + message_id.len(),
        Body::DeliverReply => 1,
        Body::Nothing => 0,
        Body::Any(octets) => octets.len(),
    }
}
