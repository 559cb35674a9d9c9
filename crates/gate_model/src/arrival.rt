//! A message that came from a centre.

use sms_record::Sms;

/// A message that came from a centre and is still to be dealt with, and whether somebody has taken it.
#[derive(Drop)]
pub struct Arrival {
    pub sms: Sms,
    pub leased: bool,
}
