//! The rules of one link.

ghost use Rattle.std.specs.Prelude.{◌≡◌, length, IfOk};

use kn_base::{Items, Memory, Octets};
use route_rules::{LinkKind, LinkRule, Rules};
use std::alloc::Global;

/// The most messages that wait, as many as a configuration can set.
const LIMIT: u64 = 4_000_000;

fn link_rule(alloc: Global) -> LinkRule {
    LinkRule {
        id: Octets::new(alloc),
        kind: LinkKind::Smpp,
        denied_ids: Items::new(alloc),
        allowed_ids: Items::new(alloc),
        preferred_ids: Items::new(alloc),
        denied_prefixes: Items::new(alloc),
        allowed_prefixes: Items::new(alloc),
        preferred_prefixes: Items::new(alloc),
    }
}

/// The rules of one SMPP link without lists.
pub(crate) fn rules(alloc: Global) -> Result<Rules, Memory>
    ensures { IfOk result (λ rules. length rules.links ≡ 1) }
{
    let mut links = Items::new(alloc);
    links.push(link_rule(alloc))?;
    Ok(Rules {
        links,
        outgoing: LIMIT,
        incoming: LIMIT,
    })
}
