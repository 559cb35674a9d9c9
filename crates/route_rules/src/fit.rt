//! How well a link suits a message.

ghost use Rattle.std.specs.Prelude.{◌≡◌};
ghost use Rattle.route_rules.specs.Routes as spec;

use crate::LinkRule;
use crate::carriage::carries;
use crate::lists::{prefers, takes_id, takes_receiver};
use sms_record::Sms;

/// How well a link suits a message.
#[derive(Clone, Copy)]
pub enum Fit {
    /// The message can't go by it.
    No,
    /// The message can go by it.
    Plain,
    /// The message goes by it rather than by others.
    Preferred,
}

/// How well a link suits a message. The first of these rules that says so counts:
///
/// 1. A link that can't carry the message doesn't suit it (`carries`).
/// 2. Where ids are allowed, the message's own SMSC id must be one of them; where none are, it must not be a denied one.
/// 3. With allowed prefixes alone, a receiver must begin with one of them; with denied ones alone, with none of them; with both, a
///    receiver that begins with a denied one must begin with an allowed one too.
/// 4. A preferred id or a preferred prefix makes the link preferred.
///
/// A prefix stands for the receiver's first characters, of which a `+` is one. It takes no memory.
pub fn usable(rule: &LinkRule, sms: &Sms) -> Fit
    ensures { result ≡ spec.fit rule.now sms.now }
{
    if !carries(rule.kind, sms) {
        return Fit::No;
    }
    if !takes_id(rule, sms.smsc.as_slice()) {
        return Fit::No;
    }
    if !takes_receiver(rule, &sms.receiver) {
        return Fit::No;
    }
    if prefers(rule, sms) {
        Fit::Preferred
    } else {
        Fit::Plain
    }
}

pub(crate) fn is_usable(suits: Fit) -> bool
    ensures { result ≡ spec.is_usable suits }
{
    matches!(suits, Fit::Plain | Fit::Preferred)
}

/// Whether a link suits a message at least so well.
pub(crate) fn is_at_least(least: Fit, suits: Fit) -> bool
    ensures { result ≡ spec.is_at_least least suits }
{
    match least {
        Fit::No => true,
        Fit::Plain => is_usable(suits),
        Fit::Preferred => matches!(suits, Fit::Preferred),
    }
}
