//! What a centre is to say.

use crate::CentreReply;
use kn_base::Octets;
use sms_record::Sms;

/// All that a centre says of its own accord, and what it answers.
#[derive(Drop)]
pub struct Script {
    /// The status of the answer to the login. 0 is a good one; any other ends the session.
    pub login: u32,
    /// The answers to messages, in order. Behind them each message is taken, under the id `A` and its number, from 1.
    pub replies: Vec<CentreReply>,
    /// Reports: behind how many messages each comes, of which id it is, and which state it names. With 0 it comes behind the login.
    pub reports: Vec<(u32, Octets, Octets)>,
    /// The messages that come behind the login. What a frame can't hold of one is left out.
    pub messages: Vec<Sms>,
}
