//! What the group `core` sets.

ghost use Rattle.std.specs.Prelude.{◌≡◌, IfOk};
ghost use Rattle.config_groups.specs.Settings as spec;

use crate::field::{number, octets, port, small};
use crate::group::Set;
use kn_base::{Memory, Octets};
use std::alloc::Global;

/// The store, the port for boxes, and how many workers there are.
#[derive(Drop)]
pub struct Core {
    /// The path of the store, empty where none is set.
    pub store_file: Octets,
    pub smsbox_port: u16,
    pub http_workers: u32,
    pub box_workers: u32,
}

/// What a group of core sets.
#[tactic(auto, unfolding(crate::specs::Settings::core_of))]
pub(crate) fn core_of(alloc: Global, group: &[Set]) -> Result<Core, Memory>
    ensures { IfOk result (λ core. core ≡ spec.core_of group.now) }
{
    Ok(Core {
        store_file: octets(alloc, group, b"store-file", &[])?,
        smsbox_port: port(group, b"smsbox-port", 13_001),
        http_workers: small(group, b"http-workers", 4),
        box_workers: small(group, b"box-workers", 4),
    })
}

/// The most messages that wait to be sent.
#[tactic(auto, unfolding(crate::specs::Settings::outgoing_of))]
pub(crate) fn outgoing_of(group: &[Set]) -> u64
    ensures { result ≡ spec.outgoing_of group.now }
{
    number(group, b"sms-outgoing-queue-limit", 1_000_000)
}

/// The most messages from centres that wait.
#[tactic(auto, unfolding(crate::specs::Settings::incoming_of))]
pub(crate) fn incoming_of(group: &[Set]) -> u64
    ensures { result ≡ spec.incoming_of group.now }
{
    number(group, b"sms-incoming-queue-limit", 1_000_000)
}
