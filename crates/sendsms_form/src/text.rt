//! The body of a text: its characters in the coding of the message.

ghost use Rattle.std.specs.Prelude.{◌≡◌, ◌≢◌, IfOk};
ghost use Rattle.sendsms_form.specs.Variables as spec;

use gsm_alphabet::{CharsetFault, from_charset, to_gsm, to_ucs2};
use kn_base::{Charset, Memory, Octets};
use sms_record::Coding;
use std::alloc::Global;

/// The body of a text in a charset: its septets, one in each octet (GSM 03.38 6.2.1), its own octets, or its UCS-2. None where the text
/// isn't right in that charset; of 8 bits each is.
///
/// # Errors
/// `Memory`.
pub fn body_of(
    alloc: Global,
    coding: Coding,
    charset: Charset,
    text: &[u8],
) -> Result<Option<Octets>, Memory>
    ensures body { IfOk result (λ body. body ≡ spec.body_of coding charset text.now) }
{
    match (coding, charset) {
        (Coding::Eight, _) => Ok(Some(Octets::from_slice(alloc, text)?)),
        (Coding::Ucs2, Charset::Utf16Be) => {
            if text.len() % 2 == 0 {
                Ok(Some(Octets::from_slice(alloc, text)?))
            } else {
                Ok(None)
            }
        }
        (Coding::Ucs2, _) => ucs2_of(alloc, charset, text),
        (Coding::Seven, _) => septets_of(alloc, charset, text),
    }
}

// The septets of a text.
fn septets_of(alloc: Global, charset: Charset, text: &[u8]) -> Result<Option<Octets>, Memory>
    ensures { IfOk result (λ body. body ≡ spec.body_of Coding.Seven charset text.now) }
{
    match from_charset(alloc, text, charset) {
        Ok(text) => Ok(Some(to_gsm(alloc, text.as_str())?)),
        Err(CharsetFault::Memory) => Err(Memory),
        Err(CharsetFault::BadUtf8 { .. }) => Ok(None),
        Err(CharsetFault::Odd { .. }) => Ok(None),
    }
}

// The UCS-2 of a text.
fn ucs2_of(alloc: Global, charset: Charset, text: &[u8]) -> Result<Option<Octets>, Memory>
    requires { charset ≢ Charset.Utf16Be }
    ensures { IfOk result (λ body. body ≡ spec.body_of Coding.Ucs2 charset text.now) }
{
    match from_charset(alloc, text, charset) {
        Ok(text) => Ok(Some(to_ucs2(alloc, text.as_str())?)),
        Err(CharsetFault::Memory) => Err(Memory),
        Err(CharsetFault::BadUtf8 { .. }) => Ok(None),
        Err(CharsetFault::Odd { .. }) => Ok(None),
    }
}
