//! What a session goes by.

use kn_base::Octets;

/// What a session goes by.
#[derive(Drop)]
pub struct Terms {
    /// The link's number among the rules.
    pub link: u32,
    /// The link's SMSC id, at most 64 octets.
    pub smsc: Octets,
    /// How many messages may be without an answer at once.
    pub window: u32,
    /// After how many seconds a login or a message without an answer ends the session.
    pub wait_ack: u32,
    /// After how many seconds without saying anything the centre is asked whether it is there. 0 says that it never is.
    pub keepalive: u32,
}
