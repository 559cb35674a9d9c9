//! Rules in memory of their own.

ghost use Rattle.std.specs.Prelude.{◌≡◌, IfOk};

use crate::{LinkRule, Rules};
use kn_base::{Items, Memory, Octets};
use std::alloc::Global;

/// Equal rules, in memory of their own.
///
/// # Errors
/// `Memory`.
pub fn copy_rules(alloc: Global, rules: &Rules) -> Result<Rules, Memory>
    ensures copy { IfOk result (λ copy. copy ≡ rules.now) }
{
    let links = copy_links(alloc, rules.links.as_slice())?;
    Ok(Rules {
        links,
        outgoing: rules.outgoing,
        incoming: rules.incoming,
    })
}

fn copy_links(alloc: Global, links: &[LinkRule]) -> Result<Items<LinkRule>, Memory>
    ensures { IfOk result (λ copies. copies ≡ links.now) }
{
    let mut copies = Items::new(alloc);
    for link in links {
        copies.push(copy_link(alloc, link)?)?;
    }
    Ok(copies)
}

fn copy_link(alloc: Global, link: &LinkRule) -> Result<LinkRule, Memory>
    ensures { IfOk result (λ copy. copy ≡ link.now) }
{
    let id = Octets::from_slice(alloc, link.id.as_slice())?;
    let (denied_ids, allowed_ids, preferred_ids) = copy_lists(
        alloc,
        &link.denied_ids,
        &link.allowed_ids,
        &link.preferred_ids,
    )?;
    let (denied_prefixes, allowed_prefixes, preferred_prefixes) = copy_lists(
        alloc,
        &link.denied_prefixes,
        &link.allowed_prefixes,
        &link.preferred_prefixes,
    )?;
    Ok(LinkRule {
        id,
        kind: link.kind,
        denied_ids,
        allowed_ids,
        preferred_ids,
        denied_prefixes,
        allowed_prefixes,
        preferred_prefixes,
    })
}

// Copies of three lists, taken together so that no function holds many that may still fail.
fn copy_lists(
    alloc: Global,
    denied: &Items<Octets>,
    allowed: &Items<Octets>,
    preferred: &Items<Octets>,
) -> Result<(Items<Octets>, Items<Octets>, Items<Octets>), Memory>
    ensures { IfOk result (λ copies. copies ≡ (denied.now, allowed.now, preferred.now)) }
{
    let denied = copy_list(alloc, denied.as_slice())?;
    let allowed = copy_list(alloc, allowed.as_slice())?;
    let preferred = copy_list(alloc, preferred.as_slice())?;
    Ok((denied, allowed, preferred))
}

fn copy_list(alloc: Global, list: &[Octets]) -> Result<Items<Octets>, Memory>
    ensures { IfOk result (λ copies. copies ≡ list.now) }
{
    let mut copies = Items::new(alloc);
    for entry in list {
        copies.push(Octets::from_slice(alloc, entry.as_slice())?)?;
    }
    Ok(copies)
}
