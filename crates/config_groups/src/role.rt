//! What a group is, by its kind and by the groups before it.

ghost use Rattle.std.specs.Prelude.{◌≡◌, option_copied};
ghost use Rattle.config_groups.specs.Roles as spec;

use crate::group::Set;
use crate::table::{CORE, GROUP, PROTOCOL, Section, protocol_of};
use route_rules::LinkKind;

/// How many groups of links, of users and of services may stand.
const MOST_GROUPS: u32 = 1_000;

const LINK: &[u8] = b"smsc";

const SMSBOX: &[u8] = b"smsbox";

const USER: &[u8] = b"sendsms-user";

const SERVICE: &[u8] = b"sms-service";

/// The kinds of groups that are known.
#[derive(Clone, Copy)]
enum Family {
    Core,
    Link,
    Smsbox,
    User,
    Service,
}

/// The kind of a group.
#[derive(Clone, Copy)]
pub(crate) enum Kind {
    Core,
    /// `smsc`, with its protocol where it names one.
    Link(Option<LinkKind>),
    Smsbox,
    /// `sendsms-user`.
    User,
    /// `sms-service`.
    Service,
}

/// What becomes of a group.
#[derive(Clone, Copy)]
pub(crate) enum Role {
    /// It has no kind, and is refused for that.
    Nameless,
    /// It is passed over: its kind is unknown, or only the first of its kind counts.
    Passed,
    /// It counts.
    Taken(Kind),
    /// It is one more of its kind than may stand, and is refused for that.
    Excess(Kind),
}

/// How many groups of each kind may still stand.
#[derive(Clone, Copy)]
pub(crate) struct Room {
    pub(crate) core: u32,
    pub(crate) links: u32,
    pub(crate) smsbox: u32,
    pub(crate) users: u32,
    pub(crate) services: u32,
}

/// The room in front of the first group.
pub(crate) fn whole_room() -> Room
    ensures { result ≡ spec.whole_room }
{
    Room {
        core: 1,
        links: MOST_GROUPS,
        smsbox: 1,
        users: MOST_GROUPS,
        services: MOST_GROUPS,
    }
}

/// The first variable of a name.
pub(crate) fn first<'a>(group: &'a [Set], name: &[u8]) -> Option<&'a Set>
    ensures { option_copied result ≡ spec.first name.now group.now }
{
    group.iter().find(|set| set.name.as_slice() == name)
}

/// The protocol that a group names.
fn protocol_in(group: &[Set]) -> Option<LinkKind>
    ensures { result ≡ spec.protocol_in group.now }
{
    match first(group, PROTOCOL) {
        Some(set) => protocol_of(set.value.as_slice()),
        None => None,
    }
}

/// A group of a kind of which only so many may stand.
fn bounded(left: u32, kind: Kind) -> Role
    ensures { result ≡ spec.bounded left kind }
{
    if left == 0 {
        Role::Excess(kind)
    } else {
        Role::Taken(kind)
    }
}

/// A group of a kind of which only the first counts.
fn only_first(left: u32, kind: Kind) -> Role
    ensures { result ≡ spec.only_first left kind }
{
    if left == 0 {
        Role::Passed
    } else {
        Role::Taken(kind)
    }
}

/// The kind of a name.
fn family_of(name: &[u8]) -> Option<Family>
    ensures { result ≡ spec.family_of name.now }
{
    if name == CORE {
        Some(Family::Core)
    } else if name == LINK {
        Some(Family::Link)
    } else if name == SMSBOX {
        Some(Family::Smsbox)
    } else if name == USER {
        Some(Family::User)
    } else if name == SERVICE {
        Some(Family::Service)
    } else {
        None
    }
}

fn role_in(room: Room, family: Option<Family>, group: &[Set]) -> Role
    ensures { result ≡ spec.role_in room family group.now }
{
    match family {
        Some(Family::Core) => only_first(room.core, Kind::Core),
        Some(Family::Link) => bounded(room.links, Kind::Link(protocol_in(group))),
        Some(Family::Smsbox) => only_first(room.smsbox, Kind::Smsbox),
        Some(Family::User) => bounded(room.users, Kind::User),
        Some(Family::Service) => bounded(room.services, Kind::Service),
        None => Role::Passed,
    }
}

/// What becomes of a group, where there is so much room.
pub(crate) fn role_of(room: Room, group: &[Set]) -> Role
    ensures { result ≡ spec.role_of room group.now }
{
    match first(group, GROUP) {
        Some(set) => role_in(room, family_of(set.value.as_slice()), group),
        None => Role::Nameless,
    }
}

/// The room behind a group.
pub(crate) fn room_behind(room: Room, role: Role) -> Room
    ensures { result ≡ spec.room_behind room role }
{
    let Role::Taken(kind) = role else {
        return room;
    };
    let mut room = room;
    match kind {
        Kind::Core => room.core = room.core.saturating_sub(1),
        Kind::Link(_) => room.links = room.links.saturating_sub(1),
        Kind::Smsbox => room.smsbox = room.smsbox.saturating_sub(1),
        Kind::User => room.users = room.users.saturating_sub(1),
        Kind::Service => room.services = room.services.saturating_sub(1),
    }
    room
}

fn is_link_of(kind: Kind, protocol: LinkKind) -> bool
    ensures { result ≡ spec.is_link_of kind protocol }
{
    match (kind, protocol) {
        (Kind::Link(Some(LinkKind::Smpp)), LinkKind::Smpp) => true,
        (Kind::Link(Some(LinkKind::Ucp)), LinkKind::Ucp) => true,
        (Kind::Link(Some(LinkKind::Cimd2)), LinkKind::Cimd2) => true,
        _ => false,
    }
}

/// Whether groups of a kind have the variables of a section.
fn has_section(kind: Kind, section: Section) -> bool
    ensures { result ≡ spec.has_section kind section }
{
    match section {
        Section::Every => true,
        Section::Core => matches!(kind, Kind::Core),
        Section::Link => matches!(kind, Kind::Link(_)),
        Section::Smpp => is_link_of(kind, LinkKind::Smpp),
        Section::Ucp => is_link_of(kind, LinkKind::Ucp),
        Section::Cimd2 => is_link_of(kind, LinkKind::Cimd2),
        Section::Smsbox => matches!(kind, Kind::Smsbox),
        Section::User => matches!(kind, Kind::User),
        Section::Service => matches!(kind, Kind::Service),
        Section::Split => matches!(kind, Kind::User | Kind::Service),
    }
}

/// Whether a group has the variables of a section.
pub(crate) fn has(role: Role, section: Section) -> bool
    ensures { result ≡ spec.has role section }
{
    match role {
        Role::Nameless => matches!(section, Section::Every),
        Role::Passed => false,
        Role::Taken(kind) | Role::Excess(kind) => has_section(kind, section),
    }
}
