//! What a group `smsc` sets.

ghost use Rattle.std.specs.Prelude.{◌≡◌, IfOk};
ghost use Rattle.config_groups.specs.Settings as spec;
ghost use Rattle.config_groups.specs.Fields as fields;

use crate::field::{list, octets, port, small, two};
use crate::group::Set;
use kn_base::{Items, Memory, Octets};
use route_rules::{LinkKind, LinkRule};
use std::alloc::Global;

/// How a link reaches its centre. Times are in seconds.
#[derive(Drop)]
pub struct LinkSettings {
    pub smsc_id: Octets,
    pub host: Octets,
    pub port: u16,
    pub smsc_username: Octets,
    pub smsc_password: Octets,
    pub system_type: Octets,
    /// The most messages that wait for the centre's answer.
    pub max_pending_submits: u32,
    /// How long the centre may take to answer.
    pub wait_ack: u32,
    /// How often an idle link is tried; 0 for never.
    pub keepalive: u32,
    /// How long a link waits before it dials again.
    pub reconnect_delay: u32,
}

/// How many messages may wait for the centre's answer.
#[tactic(auto, unfolding(crate::specs::Settings::window_of))]
fn window_of(group: &[Set]) -> u32
    ensures { result ≡ spec.window_of group.now }
{
    small(group, b"max-pending-submits", small(group, b"window", 10))
}

/// How often an idle link is tried.
#[tactic(auto, unfolding(crate::specs::Settings::keepalive_of))]
fn keepalive_of(group: &[Set]) -> u32
    ensures { result ≡ spec.keepalive_of group.now }
{
    small(
        group,
        b"keepalive",
        small(group, b"enquire-link-interval", 30),
    )
}

/// How a group of links reaches its centre.
pub(crate) fn link_of(alloc: Global, group: &[Set]) -> Result<LinkSettings, Memory>
    ensures { IfOk result (λ link. link ≡ spec.link_of group.now) }
{
    let (smsc_id, host) = two(alloc, group, b"smsc-id", b"host")?;
    let (smsc_username, smsc_password) = two(alloc, group, b"smsc-username", b"smsc-password")?;
    let system_type = octets(alloc, group, b"system-type", &[])?;
    Ok(LinkSettings {
        smsc_id,
        host,
        port: port(group, b"port", 0),
        smsc_username,
        smsc_password,
        system_type,
        max_pending_submits: window_of(group),
        wait_ack: small(group, b"wait-ack", 60),
        keepalive: keepalive_of(group),
        reconnect_delay: small(group, b"reconnect-delay", 10),
    })
}

/// Three lists of a group.
#[derive(Drop)]
struct Lists {
    denied: Items<Octets>,
    allowed: Items<Octets>,
    preferred: Items<Octets>,
}

/// The lists of these names.
fn lists_of(
    alloc: Global,
    group: &[Set],
    denied: &[u8],
    allowed: &[u8],
    preferred: &[u8],
) -> Result<Lists, Memory>
    ensures denied { IfOk result (λ lists. lists.denied ≡ fields.list denied.now group.now) }
    ensures allowed { IfOk result (λ lists. lists.allowed ≡ fields.list allowed.now group.now) }
    ensures preferred { IfOk result (λ lists. lists.preferred ≡ fields.list preferred.now group.now) }
{
    let denied = list(alloc, group, denied)?;
    let allowed = list(alloc, group, allowed)?;
    let preferred = list(alloc, group, preferred)?;
    Ok(Lists {
        denied,
        allowed,
        preferred,
    })
}

/// What a link of a protocol may carry, by its group.
#[tactic(auto, unfolding(crate::specs::Settings::rule_of))]
pub(crate) fn rule_of(alloc: Global, kind: LinkKind, group: &[Set]) -> Result<LinkRule, Memory>
    ensures { IfOk result (λ rule. rule ≡ spec.rule_of kind group.now) }
{
    let id = octets(alloc, group, b"smsc-id", &[])?;
    let ids = lists_of(
        alloc,
        group,
        b"denied-smsc-id",
        b"allowed-smsc-id",
        b"preferred-smsc-id",
    )?;
    let prefixes = lists_of(
        alloc,
        group,
        b"denied-prefix",
        b"allowed-prefix",
        b"preferred-prefix",
    )?;
    Ok(LinkRule {
        id,
        kind,
        denied_ids: ids.denied,
        allowed_ids: ids.allowed,
        preferred_ids: ids.preferred,
        denied_prefixes: prefixes.denied,
        allowed_prefixes: prefixes.allowed,
        preferred_prefixes: prefixes.preferred,
    })
}
