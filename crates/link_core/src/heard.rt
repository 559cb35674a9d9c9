//! What a centre says.

use crate::Verdict;
use kn_base::Octets;
use sms_record::{Kind, Sms};

/// What a frame of a centre says. `tag` is the number that the frame has, and an answer has the number of what it answers.
#[derive(Drop)]
pub enum Heard {
    /// The answer to a login, good where the code is 0.
    Login {
        tag: u32,
        code: u32,
    },
    /// The answer to a message.
    Reply {
        tag: u32,
        verdict: Verdict,
    },
    /// What became of a message: the centre's id of it, whether it was delivered, undelivered or buffered, and the report's words.
    Report {
        tag: u32,
        foreign: Octets,
        kind: Kind,
        text: Octets,
    },
    /// A message. It has no time and no SMSC id yet.
    Message {
        tag: u32,
        sms: Sms,
    },
    /// It asks whether the other side is there.
    Keep {
        tag: u32,
    },
    /// The answer to such a question, and to what needs no look at its answer.
    KeepReply {
        tag: u32,
    },
    /// It ends the session.
    Bye {
        tag: u32,
    },
    /// The answer to the end of a session.
    ByeReply {
        tag: u32,
    },
    /// What has the tag wasn't understood.
    Nack {
        tag: u32,
        code: u32,
    },
    /// A frame that this side doesn't serve, with what it calls itself.
    Strange {
        tag: u32,
        id: u32,
    },
}
