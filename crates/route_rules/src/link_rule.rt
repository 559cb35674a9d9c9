//! What one link may carry.

use crate::LinkKind;
use kn_base::{Items, Octets};

/// What one link may carry, by the message's SMSC id and by the front of its receiver. An empty list says nothing.
#[derive(Drop)]
pub struct LinkRule {
    /// The link's own SMSC id.
    pub id: Octets,
    pub kind: LinkKind,
    /// It carries no message with one of these SMSC ids.
    pub denied_ids: Items<Octets>,
    /// It carries only messages with one of these SMSC ids.
    pub allowed_ids: Items<Octets>,
    /// It is preferred for messages with one of these SMSC ids.
    pub preferred_ids: Items<Octets>,
    /// It carries no message to a receiver that begins with one of these.
    pub denied_prefixes: Items<Octets>,
    /// It carries only messages to receivers that begin with one of these.
    pub allowed_prefixes: Items<Octets>,
    /// It is preferred for receivers that begin with one of these.
    pub preferred_prefixes: Items<Octets>,
}
