//! The form of a request.

ghost use Rattle.std.specs.Prelude.{◌≡◌, ◌⊎◌, Ok, Err, IfOk, IfErr, IfSome};
ghost use Rattle.config_groups.specs.Ranges.{IsUser};
ghost use Rattle.config_values.specs.Forms.{IsSender};
ghost use Rattle.sendsms_form.specs.Form as spec;
ghost use Rattle.sendsms_form.specs.Ranges.{IsForm};
ghost use Rattle.sendsms_form.specs.Variables.{RefusesAs};

use crate::Pair;
use crate::addresses::{receivers_of, sender_of};
use crate::delivery::set_delivery;
use crate::manner::set_manner;
use crate::reports::set_reports;
use crate::text::body_of;
use crate::variable::value_of;
use config_groups::User;
use http_text::{Answer, Spot};
use kn_base::{Charset, Items, Octets};
use sms_record::{Address, Coding, Sms};
use std::alloc::Global;

/// What a request asks for, before its text is split.
#[derive(Drop)]
pub struct Form {
    /// 1 to 50 numbers, in the order of the request.
    pub receivers: Items<Address>,
    /// What the messages to all receivers have in common. It has no receiver, no body and no time yet.
    pub model: Sms,
    /// The text in the coding of the message.
    pub body: Octets,
}

/// Reads the form of a user's request; `common` is the sender of messages that name none (`global-sender`).
///
/// `BadRequest` with the first variable of the table that is wrong: `to` where it isn't 1 to 50 numbers, and so on to `text` where it isn't
/// right in its charset (docs/FORMATS.md, 'A request of sendsms'). `OutOfMemory` may stand in the place of any answer.
pub fn read_form(
    alloc: Global,
    user: &User,
    common: &Option<Address>,
    pairs: &[Pair],
) -> Result<Form, Answer>
    ensures form { IfOk result (λ form. spec.form_of user.now common.now pairs.now ≡ Ok form) }
    ensures refusal { RefusesAs (spec.form_of user.now common.now pairs.now) result }
    ensures within { IsUser user.now → IfSome common.now IsSender → IfOk result IsForm }
{
    form_as_defined(alloc, user, common, pairs)
}

// The form, as it is defined.
#[tactic(auto, unfolding(crate::specs::Form::form_of))]
fn form_as_defined(
    alloc: Global,
    user: &User,
    common: &Option<Address>,
    pairs: &[Pair],
) -> Result<Form, Answer>
    ensures form { IfOk result (λ form. spec.form_of user.now common.now pairs.now ≡ Ok form) }
    ensures refusal { RefusesAs (spec.form_of user.now common.now pairs.now) result }
{
    let receivers = receivers_of(alloc, pairs)?;
    let model = model_of(alloc, user, common, pairs)?;
    match body_of(
        alloc,
        model.coding,
        model.charset,
        value_of(pairs, Spot::Text),
    )? {
        Some(body) => Ok(Form {
            receivers,
            model,
            body,
        }),
        None => Err(Answer::BadRequest(Spot::Text)),
    }
}

// What the messages of a form have in common.
#[tactic(auto, unfolding(crate::specs::Form::model_of))]
fn model_of(
    alloc: Global,
    user: &User,
    common: &Option<Address>,
    pairs: &[Pair],
) -> Result<Sms, Answer>
    ensures ok { IfOk result (λ model. spec.model_of user.now common.now pairs.now ≡ Ok model) }
    ensures err { RefusesAs (spec.model_of user.now common.now pairs.now) result }
{
    let sender = sender_of(alloc, user, common, pairs)?;
    let service = Octets::from_slice(alloc, user.name.as_slice())?;
    let mut model = blank(alloc, sender, service);
    set_manner(alloc, pairs, &mut model)?;
    set_delivery(alloc, user, pairs, &mut model)?;
    set_reports(alloc, pairs, &mut model)?;
    Ok(model)
}

// A message of a service of which nothing but its sender is known.
fn blank(alloc: Global, sender: Address, service: Octets) -> Sms
    ensures { result ≡ spec.blank sender service }
{
    Sms {
        sender,
        receiver: Address::Text(Octets::new(alloc)),
        coding: Coding::Seven,
        class: None,
        udh: Octets::new(alloc),
        body: Octets::new(alloc),
        total: 1,
        part: 1,
        smsc: Octets::new(alloc),
        validity: 0,
        deferred: 0,
        mask: 0,
        url: Octets::new(alloc),
        account: Octets::new(alloc),
        service,
        charset: Charset::Utf8,
        time: 0,
    }
}
