//! What a request asks for: the parts of a message, or the answer that refuses it.

ghost use Rattle.std.specs.Prelude.{◌≡◌, ◌<◌, ◌^◌, ◌⊎◌, Some, Ok, Err, IfOk, IfErr, IfSome, All};
ghost use Rattle.config_groups.specs.Ranges.{AreSettings, IsUser};
ghost use Rattle.config_values.specs.Forms.{IsSender};
ghost use Rattle.gate_model.specs.Acceptor.{MayBeHanded};
ghost use Rattle.sendsms_form.specs.Pairs.{pairs};
ghost use Rattle.sendsms_http.specs.Request as spec;

use crate::target::{cut_target, is_path};
use crate::users::user_of;
use config_groups::{Settings, User};
use http_text::{Answer, Head, Spot};
use sendsms_form::{Pair, messages, read_form, read_pairs};
use sms_record::{Address, Sms};
use std::alloc::Global;

/// The parts of the message that a request's head asks for, or the answer that refuses it, at the reading `now` of the clock
/// in Unix seconds.
///
/// The first that is wrong is answered: `BadRequest(Head)` where the target doesn't begin with `/`; `BadRequest(Method)` where the method
/// isn't GET; `BadRequest(Body)` where there is a body; `UnknownPath` where the path isn't `sendsms-url`; `Unauthorized` where
/// no user has the name and the password of the query; `BadRequest` with the first variable of the table that holds what it may not
/// (docs/FORMATS.md, 'A request of sendsms'), or with `Text` where the text has no room in its parts. `OutOfMemory` may stand in the place of
/// any answer.
#[tactic(auto, unfolding(crate::specs::Request::asked))]
pub fn asked(alloc: Global, settings: &Settings, head: &Head, now: u64) -> Result<Vec<Sms>, Answer>
    requires in_time { now < 2 ^ 37 }
    requires in_range { AreSettings settings.now }
    ensures parts { IfOk result (λ parts. spec.asked settings.now head.now now ≡ Ok parts.items) }
    ensures refusal { IfErr result (λ answer. (answer ≡ Answer.OutOfMemory) ⊎ (spec.asked settings.now head.now now ≡ Err answer)) }
    ensures handed { IfOk result (λ parts. MayBeHanded parts.items now) }
    ensures timed { IfOk result (λ parts. All (λ part. part.time ≡ now) parts.items) }
{
    if !is_path(head.target.as_slice()) {
        return Err(Answer::BadRequest(Spot::Head));
    }
    if !head.get {
        return Err(Answer::BadRequest(Spot::Method));
    }
    if head.body {
        return Err(Answer::BadRequest(Spot::Body));
    }
    let (path, query) = cut_target(head.target.as_slice());
    if path != settings.smsbox.sendsms_url.as_slice() {
        return Err(Answer::UnknownPath);
    }
    asked_of(alloc, settings, query, now)
}

// What a query asks under these settings.
fn asked_of(alloc: Global, settings: &Settings, query: &[u8], now: u64) -> Result<Vec<Sms>, Answer>
    requires in_time { now < 2 ^ 37 }
    requires in_range { AreSettings settings.now }
    ensures parts { IfOk result (λ parts. spec.asked_of settings.now now (pairs query.now) ≡ Ok parts.items) }
    ensures refusal { IfErr result (λ answer. (answer ≡ Answer.OutOfMemory) ⊎ (spec.asked_of settings.now now (pairs query.now) ≡ Err answer)) }
    ensures handed { IfOk result (λ parts. MayBeHanded parts.items now) }
    ensures timed { IfOk result (λ parts. All (λ part. part.time ≡ now) parts.items) }
{
    let pairs = read_pairs(alloc, query)?;
    match user_of(settings.users.as_slice(), pairs.as_slice()) {
        Some(user) => asked_by(
            alloc,
            user,
            &settings.smsbox.global_sender,
            pairs.as_slice(),
            now,
        ),
        None => Err(Answer::Unauthorized),
    }
}

// What a form asks as a user's.
fn asked_by(
    alloc: Global,
    user: &User,
    common: &Option<Address>,
    pairs: &[Pair],
    now: u64,
) -> Result<Vec<Sms>, Answer>
    requires in_time { now < 2 ^ 37 }
    requires user { IsUser user.now }
    requires common { IfSome common.now IsSender }
    ensures parts { IfOk result (λ parts. spec.asked_by (Some user.now) common.now now pairs.now ≡ Ok parts.items) }
    ensures refusal { IfErr result (λ answer. (answer ≡ Answer.OutOfMemory) ⊎ (spec.asked_by (Some user.now) common.now now pairs.now ≡ Err answer)) }
    ensures handed { IfOk result (λ parts. MayBeHanded parts.items now) }
    ensures timed { IfOk result (λ parts. All (λ part. part.time ≡ now) parts.items) }
{
    let form = read_form(alloc, user, common, pairs)?;
    messages(alloc, user, form, now)
}
