//! What is said to a centre.

use sms_record::Sms;

/// What a frame to a centre is to say.
#[derive(Drop)]
pub enum Out {
    /// Begins the session, with the name and the password of the link.
    Login {
        tag: u32,
    },
    /// A message with its number in the store, at a reading of the clock in Unix seconds.
    Submit {
        tag: u32,
        number: u64,
        sms: Sms,
        now: u64,
    },
    /// Answers a report well.
    ReportReply {
        tag: u32,
    },
    /// Answers a message: it was taken, or there was no room for it.
    MessageReply {
        tag: u32,
        good: bool,
    },
    /// Asks whether the centre is there.
    Keep {
        tag: u32,
    },
    /// Answers that question.
    KeepReply {
        tag: u32,
    },
    /// Answers the end of a session.
    ByeReply {
        tag: u32,
    },
    /// Answers a strange frame, by what it calls itself.
    Nack {
        tag: u32,
        id: u32,
    },
}
