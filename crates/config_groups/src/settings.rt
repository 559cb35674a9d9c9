//! What a configuration sets.

ghost use Rattle.std.specs.Prelude.{◌≡◌, IfOk, OnOk};
ghost use Rattle.config_groups.specs.Settings as spec;

mod core_settings;
mod link_settings;
mod service;
mod smsbox;
mod user;

use crate::field::two;
use crate::group::Set;
use crate::passed::passed_of;
use crate::role::{Kind, Role, role_of, room_behind, whole_room};
pub use core_settings::Core;
use core_settings::{core_of, incoming_of, outgoing_of};
use kn_base::{Items, Memory, Octets};
pub use link_settings::LinkSettings;
use link_settings::{link_of, rule_of};
use route_rules::{LinkKind, Rules};
pub use service::Service;
use service::service_of;
pub use smsbox::Smsbox;
use smsbox::smsbox_of;
use std::alloc::Global;
pub use user::User;
use user::user_of;

/// What a configuration sets. Lists stand in the order of its groups.
#[derive(Drop)]
pub struct Settings {
    pub core: Core,
    /// What each link may carry, and how many messages may wait.
    pub rules: Rules,
    /// How each link reaches its centre, in the order of `rules`.
    pub links: Items<LinkSettings>,
    pub smsbox: Smsbox,
    pub users: Items<User>,
    pub services: Items<Service>,
    /// How many groups and variables were passed over, since they are unknown or only the first of their kind counts. It stands
    /// still at 2^64 - 1.
    pub passed: u64,
}

/// How messages are split: `split-chars` and `split-suffix`, `header` and `footer`.
#[tactic(auto, unfolding(crate::specs::Settings::texts_of))]
fn texts_of(alloc: Global, group: &[Set]) -> Result<((Octets, Octets), (Octets, Octets)), Memory>
    ensures { IfOk result (λ texts. texts ≡ spec.texts_of group.now) }
{
    let splitting = two(alloc, group, b"split-chars", b"split-suffix")?;
    let around = two(alloc, group, b"header", b"footer")?;
    Ok((splitting, around))
}

/// The settings of a configuration without groups.
#[tactic(auto, unfolding(crate::specs::Settings::no_settings))]
fn no_settings(alloc: Global, passed: u64) -> Result<Settings, Memory>
    ensures { IfOk result (λ settings. settings ≡ spec.no_settings passed) }
{
    let core = core_of(alloc, &[])?;
    let smsbox = smsbox_of(alloc, &[])?;
    Ok(Settings {
        core,
        rules: Rules {
            links: Items::new(alloc),
            outgoing: outgoing_of(&[]),
            incoming: incoming_of(&[]),
        },
        links: Items::new(alloc),
        smsbox,
        users: Items::new(alloc),
        services: Items::new(alloc),
        passed,
    })
}

#[tactic(auto, unfolding(crate::specs::Settings::with_core))]
fn put_core(alloc: Global, settings: &mut Settings, group: &[Set]) -> Result<(), Memory>
    ensures { OnOk result (settings.new ≡ spec.with_core settings.old group.now) }
{
    settings.core = core_of(alloc, group)?;
    settings.rules.outgoing = outgoing_of(group);
    settings.rules.incoming = incoming_of(group);
    Ok(())
}

#[tactic(auto, unfolding(crate::specs::Settings::with_link))]
fn put_link(
    alloc: Global,
    settings: &mut Settings,
    kind: LinkKind,
    group: &[Set],
) -> Result<(), Memory>
    ensures { OnOk result (settings.new ≡ spec.with_link settings.old kind group.now) }
{
    settings.rules.links.push(rule_of(alloc, kind, group)?)?;
    settings.links.push(link_of(alloc, group)?)
}

/// Puts what a group sets to what those before it set.
fn put_group(
    alloc: Global,
    settings: &mut Settings,
    role: Role,
    group: &[Set],
) -> Result<(), Memory>
    ensures { OnOk result (settings.new ≡ spec.with_group settings.old role group.now) }
{
    match role {
        Role::Taken(Kind::Core) => put_core(alloc, settings, group)?,
        Role::Taken(Kind::Link(Some(kind))) => put_link(alloc, settings, kind, group)?,
        Role::Taken(Kind::Smsbox) => settings.smsbox = smsbox_of(alloc, group)?,
        Role::Taken(Kind::User) => settings.users.push(user_of(alloc, group)?)?,
        Role::Taken(Kind::Service) => settings.services.push(service_of(alloc, group)?)?,
        _ => {}
    }
    Ok(())
}

/// What groups set.
#[tactic(auto, unfolding(crate::specs::Settings::settings_of))]
pub(crate) fn settings_of(alloc: Global, groups: &[Items<Set>]) -> Result<Settings, Memory>
    ensures { IfOk result (λ settings. settings ≡ spec.settings_of groups.now) }
{
    let mut settings = no_settings(alloc, passed_of(groups))?;
    let mut room = whole_room();
    for group in groups {
        let role = role_of(room, group.as_slice());
        put_group(alloc, &mut settings, role, group.as_slice())?;
        room = room_behind(room, role);
    }
    Ok(settings)
}
