//! What a link is given that asks for its next message.

use sms_record::Sms;

/// What a link is given that asks for its next message.
pub enum Taken {
    /// A message to send, which the link has taken.
    Send {
        /// The message's number.
        message: u64,
        /// The message.
        sms: Sms,
    },
    /// A message whose validity had passed. It was rejected for that, and is not to be sent.
    Expired {
        /// The message's number.
        message: u64,
    },
}
