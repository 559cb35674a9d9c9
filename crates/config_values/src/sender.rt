//! A value that is an address which a message can come from.

ghost use Rattle.std.specs.Prelude.{◌≡◌, IfOk, IfSome};
ghost use Rattle.std.specs.List.{list_all};
ghost use Rattle.sms_record.specs.Record.{IsAddress};
ghost use Rattle.config_values.specs.Values as spec;

use crate::shape::{has_len, is_digits};
use kn_base::{Memory, Octets};
use sms_record::Address;
use sms_record::limits::MOST_DIGITS;
use std::alloc::Global;

/// The most characters of a text that a message can come from (GSM 03.40 9.1.2.5: eleven characters fill its ten octets).
const MOST_TEXT: usize = 11;

/// The characters of such a text that are neither letters nor digits.
const MARKS: &[u8] = b" .,:;!?+-/()=*#'\"";

/// Whether a `+` stands first, and what stands behind it.
fn cut_plus(value: &[u8]) -> (bool, &[u8])
    ensures plus { result.0 ≡ spec.has_plus value.now }
    ensures rest { result.1.now ≡ spec.behind_plus value.now }
{
    match value {
        [b'+', rest @ ..] => (true, rest),
        _ => (false, value),
    }
}

/// Whether a text that a message can come from may hold this octet: an ASCII letter, a digit, a space or one of `.,:;!?+-/()=*#'"`.
pub fn is_text_octet(octet: u8) -> bool
    ensures { result ≡ spec.is_text_octet octet }
{
    octet.is_ascii_alphanumeric() || MARKS.contains(&octet)
}

fn are_text_octets(value: &[u8]) -> bool
    ensures { result ≡ list_all spec.is_text_octet value.now }
{
    value.iter().all(|&octet| is_text_octet(octet))
}

/// Whether a message can come from this text: it is 1 to 11 such octets.
pub fn is_sendable_text(value: &[u8]) -> bool
    ensures { result ≡ spec.is_sendable_text value.now }
{
    has_len(value, 1, MOST_TEXT) && are_text_octets(value)
}

/// Whether a value is an address that a message can come from.
pub(crate) fn is_sendable(value: &[u8]) -> bool
    ensures { result ≡ spec.is_sendable (spec.address_of value.now) }
{
    let (_, digits) = cut_plus(value);
    is_digits(digits, usize::from(MOST_DIGITS)) || is_sendable_text(value)
}

/// The address that a message can come from by a value, and `None` exactly where a message can't come from it. `Memory`.
pub fn sender_of(alloc: Global, value: &[u8]) -> Result<Option<Address>, Memory>
    ensures sender { IfOk result (λ sender. sender ≡ spec.sender_of value.now) }
    ensures address { IfOk result (λ sender. IfSome sender IsAddress) }
{
    let (plus, digits) = cut_plus(value);
    if is_digits(digits, usize::from(MOST_DIGITS)) {
        let digits = Octets::from_slice(alloc, digits)?;
        return Ok(Some(Address::Number { plus, digits }));
    }
    if is_sendable_text(value) {
        let text = Octets::from_slice(alloc, value)?;
        return Ok(Some(Address::Text(text)));
    }
    Ok(None)
}
