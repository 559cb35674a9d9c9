//! The lists of a rule, and what they say of a message.

ghost use Rattle.std.specs.Prelude.{◌≡◌, ◌∷◌, nat_eq};
ghost use Rattle.std.specs.List.{starts_with};
ghost use Rattle.route_rules.specs.Routes as spec;

use crate::LinkRule;
use kn_base::{Items, Octets};
use sms_record::{Address, Sms};

/// Whether this SMSC id is in a list.
fn has_id(ids: &Items<Octets>, id: &[u8]) -> bool
    ensures { result ≡ spec.has_id ids.now id.now }
{
    ids.as_slice().iter().any(|listed| listed.as_slice() == id)
}

/// Whether digits behind a `+` begin with a prefix.
fn plus_begins(digits: &[u8], prefix: &[u8]) -> bool
    ensures { result ≡ starts_with nat_eq (43 ∷ digits.now) prefix.now }
{
    match prefix {
        [] => true,
        [first, rest @ ..] => *first == b'+' && digits.starts_with(rest),
    }
}

/// Whether an address as it is written begins with a prefix.
fn begins(address: &Address, prefix: &[u8]) -> bool
    ensures { result ≡ starts_with nat_eq (spec.written address.now) prefix.now }
{
    match address {
        Address::Number { plus, digits } => {
            if *plus {
                plus_begins(digits.as_slice(), prefix)
            } else {
                digits.as_slice().starts_with(prefix)
            }
        }
        Address::Text(text) => text.as_slice().starts_with(prefix),
    }
}

/// Whether an address begins with a prefix of a list.
fn has_prefix(prefixes: &Items<Octets>, address: &Address) -> bool
    ensures { result ≡ spec.has_prefix prefixes.now address.now }
{
    prefixes
        .as_slice()
        .iter()
        .any(|prefix| begins(address, prefix.as_slice()))
}

/// Whether a rule lets messages with this SMSC id through.
pub(crate) fn takes_id(rule: &LinkRule, id: &[u8]) -> bool
    ensures { result ≡ spec.takes_id rule.now id.now }
{
    if rule.allowed_ids.len() == 0 {
        !has_id(&rule.denied_ids, id)
    } else {
        has_id(&rule.allowed_ids, id)
    }
}

/// Whether denied and allowed prefixes let messages to this receiver through.
fn takes_by(denied: &Items<Octets>, allowed: &Items<Octets>, receiver: &Address) -> bool
    ensures { result ≡ spec.takes_by denied.now allowed.now receiver.now }
{
    match (denied.as_slice(), allowed.as_slice()) {
        ([], []) => true,
        ([], _) => has_prefix(allowed, receiver),
        (_, []) => !has_prefix(denied, receiver),
        _ => !has_prefix(denied, receiver) || has_prefix(allowed, receiver),
    }
}

/// Whether a rule lets messages to this receiver through.
pub(crate) fn takes_receiver(rule: &LinkRule, receiver: &Address) -> bool
    ensures { result ≡ spec.takes_receiver rule.now receiver.now }
{
    takes_by(&rule.denied_prefixes, &rule.allowed_prefixes, receiver)
}

/// Whether a rule prefers its link for a message.
pub(crate) fn prefers(rule: &LinkRule, sms: &Sms) -> bool
    ensures { result ≡ spec.prefers rule.now sms.now }
{
    has_id(&rule.preferred_ids, sms.smsc.as_slice())
        || has_prefix(&rule.preferred_prefixes, &sms.receiver)
}
