//! The rules of all links.

use crate::LinkRule;
use kn_base::Items;

/// The rules of all links, and how many messages may wait.
#[derive(Drop)]
pub struct Rules {
    /// A rule a link, in the order of the configuration.
    pub links: Items<LinkRule>,
    /// The most messages that wait to be sent to centres.
    pub outgoing: u64,
    /// The most messages from centres that wait to be dealt with.
    pub incoming: u64,
}
