//! Rules of links without lists.

ghost use Rattle.std.specs.Prelude.{◌≡◌, ◌≤◌, [], length, All, IfOk};
ghost use Rattle.gate_entries.specs.Entry.{IsText};
ghost use Rattle.gate_model.specs.Gate.{HaveIds};

use crate::entries::nth;
use kn_base::{Items, Memory, Octets};
use route_rules::{LinkKind, LinkRule, Rules};
use std::alloc::Global;

/// The most links of a case.
const MOST_LINKS: usize = 8;

fn link_rule(alloc: Global) -> LinkRule
    ensures { result.id ≡ [] }
{
    LinkRule {
        id: Octets::new(alloc),
        kind: LinkKind::Smpp,
        denied_ids: Items::new(alloc),
        allowed_ids: Items::new(alloc),
        preferred_ids: Items::new(alloc),
        denied_prefixes: Items::new(alloc),
        allowed_prefixes: Items::new(alloc),
        preferred_prefixes: Items::new(alloc),
    }
}

/// So many links, and no more than a case has.
fn links_of(alloc: Global, count: u64) -> Result<Items<LinkRule>, Memory>
    ensures few { IfOk result (λ links. length links ≤ 8) }
    ensures ids { IfOk result (λ links. All (λ rule. IsText rule.id) links) }
{
    let mut links = Items::new(alloc);
    for _ in 0..count {
        if links.len() >= MOST_LINKS {
            break;
        }
        links.push(link_rule(alloc))?;
    }
    Ok(links)
}

/// The rules of a head: how many links there are, and how many messages and arrivals may be held.
pub(crate) fn rules_of(alloc: Global, head: &[u64]) -> Result<Rules, Memory>
    ensures few { IfOk result (λ rules. length rules.links ≤ 8) }
    ensures ids { IfOk result HaveIds }
{
    let links = links_of(alloc, nth(head, 0))?;
    Ok(Rules {
        links,
        outgoing: nth(head, 1),
        incoming: nth(head, 2),
    })
}
