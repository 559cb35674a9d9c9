//! Addresses as words.

use crate::put_octets;
use kn_base::{Memory, Octets};
use sms_record::Address;

/// Puts an address last, behind a space: digits, a `+` in front where it has one, or `text:` and a text.
pub fn put_address(report: &mut Octets, address: &Address) -> Result<(), Memory> {
    match address {
        Address::Number { plus: true, digits } => put_octets(report, b" +", digits.as_slice()),
        Address::Number {
            plus: false,
            digits,
        } => put_octets(report, b" ", digits.as_slice()),
        Address::Text(text) => put_octets(report, b" text:", text.as_slice()),
    }
}
