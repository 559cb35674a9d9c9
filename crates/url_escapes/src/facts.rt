//! What escapes stand for.

use kn_base::{Items, Octets};

/// What each escape of a template stands for: facts of a message, or of a report about one.
#[derive(Drop)]
pub struct Facts {
    /// The first word.
    pub keyword: Octets,
    /// All words in order, the first among them. Spaces, TABs, CRs and LFs separate them.
    pub words: Items<Octets>,
    /// The message as text.
    pub message: Octets,
    /// When it came, in Unix seconds.
    pub time: u64,
    pub sender: Octets,
    pub receiver: Octets,
    /// The id of the centre's link.
    pub smsc: Octets,
    /// The text of the internal id, as `internal_id` gives it.
    pub internal: Octets,
    /// The kind of a report, as its value in a mask of kinds. 0 is no report.
    pub value: u8,
    /// What the centre answered.
    pub answer: Octets,
    /// The centre's id of the message.
    pub foreign: Octets,
    /// The name of the user or service.
    pub name: Octets,
    /// 0 for septets, 1 for octets of 8 bits, 2 for UCS-2.
    pub coding: u8,
    /// The message class (GSM 03.38, section 4).
    pub class: Option<u8>,
    /// The name of a charset.
    pub charset: Octets,
    /// The user data header.
    pub udh: Octets,
    pub account: Octets,
}
