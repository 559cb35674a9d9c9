//! What a group `sendsms-user` sets.

ghost use Rattle.std.specs.Prelude.{◌≡◌, IfOk};
ghost use Rattle.config_groups.specs.Settings as spec;

use crate::field::{octets, sender, small, truth, two, value};
use crate::group::Set;
use crate::settings::texts_of;
use kn_base::{Memory, Octets};
use sms_record::Address;
use std::alloc::Global;

/// Who may send by sendsms, and how a long message is split.
#[derive(Drop)]
pub struct User {
    pub username: Octets,
    pub password: Octets,
    /// The name under which messages are kept; the username where none is set.
    pub name: Octets,
    /// The SMSC id of messages that name none.
    pub default_smsc: Octets,
    /// The SMSC id of all messages, where it isn't empty.
    pub forced_smsc: Octets,
    /// The sender of messages that name none.
    pub default_sender: Option<Address>,
    /// The sender of all messages.
    pub faked_sender: Option<Address>,
    /// The most parts of a message.
    pub max_messages: u32,
    /// Whether parts are joined again by the receiver's telephone.
    pub concatenation: bool,
    /// Characters behind which a message is rather split.
    pub split_chars: Octets,
    /// What stands behind each part but the last.
    pub split_suffix: Octets,
    /// What stands in front of each part.
    pub header: Octets,
    /// What stands behind each part.
    pub footer: Octets,
}

/// Where the messages of a user come from and go through.
#[derive(Drop)]
struct Ways {
    default_smsc: Octets,
    forced_smsc: Octets,
    default_sender: Option<Address>,
    faked_sender: Option<Address>,
}

fn ways_of(alloc: Global, group: &[Set]) -> Result<Ways, Memory>
    ensures { IfOk result (λ ways. ways ≡ spec.ways_of group.now) }
{
    let (default_smsc, forced_smsc) = two(alloc, group, b"default-smsc", b"forced-smsc")?;
    let default_sender = sender(alloc, group, b"default-sender")?;
    let faked_sender = sender(alloc, group, b"faked-sender")?;
    Ok(Ways {
        default_smsc,
        forced_smsc,
        default_sender,
        faked_sender,
    })
}

/// Who a user is: username and password, and the name.
#[tactic(auto, unfolding(crate::specs::Settings::identity_of))]
fn identity_of(alloc: Global, group: &[Set]) -> Result<((Octets, Octets), Octets), Memory>
    ensures { IfOk result (λ identity. identity ≡ spec.identity_of group.now) }
{
    let login = two(alloc, group, b"username", b"password")?;
    let name = octets(alloc, group, b"name", value(group, b"username", &[]))?;
    Ok((login, name))
}

/// What a group of a user sets.
#[tactic(auto, unfolding(crate::specs::Settings::user_of))]
pub(crate) fn user_of(alloc: Global, group: &[Set]) -> Result<User, Memory>
    ensures { IfOk result (λ user. user ≡ spec.user_of group.now) }
{
    let ((username, password), name) = identity_of(alloc, group)?;
    let ways = ways_of(alloc, group)?;
    let ((split_chars, split_suffix), (header, footer)) = texts_of(alloc, group)?;
    Ok(User {
        username,
        password,
        name,
        default_smsc: ways.default_smsc,
        forced_smsc: ways.forced_smsc,
        default_sender: ways.default_sender,
        faked_sender: ways.faked_sender,
        max_messages: small(group, b"max-messages", 10),
        concatenation: truth(group, b"concatenation", true),
        split_chars,
        split_suffix,
        header,
        footer,
    })
}
