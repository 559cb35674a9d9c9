//! The message itself.

use crate::{Address, Coding};
use kn_base::{Charset, Octets};

/// One message, or one part of a longer one, with what its requester asked for.
#[derive(Drop)]
pub struct Sms {
    pub sender: Address,
    pub receiver: Address,
    pub coding: Coding,
    /// The message class, 0 to 3 (GSM 03.38, section 4).
    pub class: Option<u8>,
    /// The user data header (GSM 03.40 9.2.3.24) as the requester gave it: empty or well-formed, at most 140 octets.
    pub udh: Octets,
    /// Septets, octets or UCS-2 units by `coding`, at most 2,048 octets.
    pub body: Octets,
    /// How many parts the message has, 1 to 100. One that wasn't split has 1.
    pub total: u8,
    /// Which of them this is, from 1 to `total`.
    pub part: u8,
    /// The id of the centre's link that the message is for, or empty. At most 64 octets.
    pub smsc: Octets,
    /// For how many minutes the message is worth sending, at most 43,200. 0 means that no end was asked for.
    pub validity: u32,
    /// How many minutes the message is held before it is sent, at most 43,200.
    pub deferred: u32,
    /// The sum of the kinds of reports that are asked for, 0 to 31.
    pub mask: u8,
    /// Where reports go. At most 2,048 octets.
    pub url: Octets,
    /// The account that the requester named. At most 64 octets.
    pub account: Octets,
    /// The name of the user or service that the message came from. At most 64 octets.
    pub service: Octets,
    /// The charset in which reports about the message are to be written.
    pub charset: Charset,
    /// When the message was asked for, in Unix seconds, below 2^37.
    pub time: u64,
}
