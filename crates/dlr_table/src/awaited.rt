//! One message that waits for a report.

use sms_record::Sms;

/// A message that its centre took, and of which a report is asked for.
#[derive(Drop)]
pub struct Awaited {
    /// Its number.
    pub message: u64,
    /// The message without its body, which no report needs: who makes an `Awaited` leaves the body empty.
    pub sms: Sms,
}
