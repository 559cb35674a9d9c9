//! What a centre answers a message.

use kn_base::Octets;

/// An answer to one message.
#[derive(Drop)]
pub enum CentreReply {
    /// It is taken, under this id. Of an id the first 64 octets are said, up to an octet 00.
    Good(Octets),
    /// It isn't taken, with this status.
    Refuse(u32),
    /// None comes.
    Silent,
}
