//! The messages that a form asks for.

ghost use Rattle.std.specs.Prelude.{◌≡◌, ◌⊎◌, ◌<◌, ◌^◌, ◌++◌, Ok, Err, IfOk, IfErr, OnOk, All, ℕ, length, map};
ghost use Rattle.std.specs.List.{flat_map};
ghost use Rattle.concat_split.specs.Kept.{AreParts};
ghost use Rattle.config_groups.specs.Ranges.{IsUser};
ghost use Rattle.gate_model.specs.Acceptor.{MayBeHanded};
ghost use Rattle.sendsms_form.specs.Ranges.{IsForm};
ghost use Rattle.sendsms_form.specs.Messages as spec;
ghost use Rattle.sendsms_form.specs.Variables.{RefusesAs};

use crate::Form;
use crate::limits::limits_of;
use concat_split::{Part, SplitFault, split};
use config_groups::User;
use http_text::{Answer, Spot};
use kn_base::{Items, Memory, Octets};
use sms_record::{Address, Sms, copy_address, copy_sms};
use std::alloc::Global;

/// The messages that a user's form asks for, at the reading `now` of the clock in Unix seconds: the parts to the first receiver, then those to
/// the second, and so on (docs/FORMATS.md, 'Parts').
///
/// `BadRequest(Text)` where the text needs more than one part and a part has no room for two units of it. `OutOfMemory` may stand in the
/// place of any answer.
#[tactic(auto, unfolding(crate::specs::Messages::messages_of))]
pub fn messages(alloc: Global, user: &User, form: Form, now: u64) -> Result<Vec<Sms>, Answer>
    requires in_time { now < 2 ^ 37 }
    requires in_range { IsUser user.now }
    requires form { IsForm form }
    ensures messages { IfOk result (λ messages. spec.messages_of user.now form now ≡ Ok messages.items) }
    ensures refusal { RefusesAs (spec.messages_of user.now form now) result }
    ensures handed { IfOk result (λ messages. MayBeHanded messages.items now) }
    ensures timed { IfOk result (λ messages. All (λ message. message.time ≡ now) messages.items) }
{
    let parts = parts_of(alloc, user, &form)?;
    Ok(to_each(alloc, form, now, parts.as_slice())?)
}

// The parts of a form's text.
#[tactic(auto, unfolding(crate::specs::Messages::messages_of))]
fn parts_of(alloc: Global, user: &User, form: &Form) -> Result<Vec<Part>, Answer>
    requires in_range { IsUser user.now }
    requires form { IsForm form.now }
    ensures parts { IfOk result (λ parts. spec.parts_in user.now form.now ≡ Ok parts.items) }
    ensures refusal { (now : ℕ) → RefusesAs (spec.messages_of user.now form.now now) result }
    ensures each { IfOk result (λ parts. AreParts form.now.model.coding (length form.now.model.udh) (spec.limits_of user.now form.now.model.coding) parts.items) }
{
    let coding = form.model.coding;
    let limits = limits_of(alloc, user, coding)?;
    match split(
        alloc,
        form.body.as_slice(),
        coding,
        form.model.udh.len(),
        &limits,
    ) {
        Ok(parts) => Ok(parts),
        Err(SplitFault::NoRoom { .. }) => Err(Answer::BadRequest(Spot::Text)),
        Err(SplitFault::Memory) => Err(Answer::OutOfMemory),
    }
}

// The parts to each of a form's receivers.
fn to_each(alloc: Global, form: Form, now: u64, parts: &[Part]) -> Result<Vec<Sms>, Memory>
    ensures { IfOk result (λ messages. messages.items ≡ spec.to_each form now form.receivers parts.now) }
{
    let mut messages = Items::new(alloc);
    for receiver in form.receivers.as_slice() {
        put_parts(alloc, &mut messages, &form, now, receiver, parts)?;
    }
    Ok(messages.into_vec())
}

// Puts the parts to one receiver last.
fn put_parts(
    alloc: Global,
    messages: &mut Items<Sms>,
    form: &Form,
    now: u64,
    receiver: &Address,
    parts: &[Part],
) -> Result<(), Memory>
    ensures { OnOk result (messages.new ≡ messages.old ++ map (spec.message form.now now receiver.now) parts.now) }
{
    for part in parts {
        messages.push(message(alloc, form, now, receiver, part)?)?;
    }
    Ok(())
}

// One part to one receiver.
fn message(
    alloc: Global,
    form: &Form,
    now: u64,
    receiver: &Address,
    part: &Part,
) -> Result<Sms, Memory>
    ensures { IfOk result (λ sms. sms ≡ spec.message form.now now receiver.now part.now) }
{
    let mut sms = copy_sms(alloc, &form.model)?;
    sms.receiver = copy_address(alloc, receiver)?;
    sms.body = Octets::from_slice(alloc, part.body.as_slice())?;
    sms.total = part.total;
    sms.part = part.part;
    sms.time = now;
    Ok(sms)
}
