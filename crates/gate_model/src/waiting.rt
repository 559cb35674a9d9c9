//! A message that waits to be sent.

use sms_record::Sms;

/// A message that waits to be sent, and the link that has taken it, where one has.
#[derive(Drop)]
pub struct Waiting {
    pub sms: Sms,
    pub lease: Option<u32>,
}
