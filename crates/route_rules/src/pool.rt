//! Which link sends a message.

ghost use Rattle.std.specs.Prelude.{◌≡◌, ◌<◌, ◌^◌, ◌↔◌, [], length, Some, None, IsNone, IfSome, IsTrue, Contains};
ghost use Rattle.route_rules.specs.Routes as spec;
ghost use Rattle.route_rules.specs.Steps as steps;

use crate::fit::{is_at_least, is_usable};
use crate::{Fit, LinkRule, Rules, usable};
use sms_record::Sms;

/// Whether a message can go by some link, up or not. It takes no memory.
pub fn routable(rules: &Rules, sms: &Sms) -> bool
    ensures { result ≡ spec.routable rules.now sms.now }
{
    rules
        .links
        .as_slice()
        .iter()
        .any(|rule| is_usable(usable(rule, sms)))
}

/// Whether a link is up, and suits a message at least so well.
fn is_ready(least: Fit, rule: &LinkRule, up: bool, sms: &Sms) -> bool
    ensures { result ≡ spec.is_ready least rule.now up sms.now }
{
    up && is_at_least(least, usable(rule, sms))
}

/// Of two links the one with fewer messages in flight, and the first where both have as many.
fn fewer(flight: &[u64], best: Option<u32>, link: u32) -> Option<u32>
    requires best { IfSome best (λ best. best < length flight.now) }
    requires link { link < length flight.now }
    ensures value { result ≡ steps.fewer flight.now best (Some link) }
    ensures within { IfSome result (λ best. best < length flight.now) }
{
    match best {
        None => Some(link),
        Some(best) => {
            if flight[best as usize] <= flight[link as usize] {
                Some(best)
            } else {
                Some(link)
            }
        }
    }
}

/// The first with the fewest in flight of the links that are up and suit a message at least so well.
fn first_of_fewest(
    least: Fit,
    links: &[LinkRule],
    up: &[bool],
    flight: &[u64],
    sms: &Sms,
) -> Option<u32>
    requires few { length links.now < 2 ^ 32 }
    requires ups { length up.now ≡ length links.now }
    requires flights { length flight.now ≡ length links.now }
    ensures { result ≡ spec.first_of_fewest flight.now (spec.numbers_from 0 least links.now up.now sms.now) }
{
    let mut best = None;
    for (link, rule) in links.iter().enumerate() {
        if !is_ready(least, rule, up[link], sms) {
            continue;
        }
        best = fewer(flight, best, link as u32);
    }
    best
}

/// The number of the link that sends a message, counted from 0 in the order of the rules.
///
/// Of the links that suit the message and are up, those that prefer it go first: where one does, no other counts. Among the rest it is
/// the one with the least in flight, and of several such the one that stands first. `up` says of each link whether it is up, `flight` how
/// many messages it has in flight. `None` exactly where no link that is up suits. It takes no memory.
pub fn assign(rules: &Rules, up: &[bool], flight: &[u64], sms: &Sms) -> Option<u32>
    requires few { length rules.now.links < 2 ^ 32 }
    requires ups { length up.now ≡ length rules.now.links }
    requires flights { length flight.now ≡ length rules.now.links }
    ensures value { result ≡ spec.chosen rules.now up.now flight.now sms.now }

    // There is none exactly where the pool is empty, and else it is of the pool.
    ensures none { IsNone result ↔ (spec.pool rules.now up.now sms.now ≡ []) }
    ensures among { IfSome result (λ link. Contains (spec.pool rules.now up.now sms.now) link) }
{
    let links = rules.links.as_slice();
    match first_of_fewest(Fit::Preferred, links, up, flight, sms) {
        Some(link) => Some(link),
        None => first_of_fewest(Fit::Plain, links, up, flight, sms),
    }
}
