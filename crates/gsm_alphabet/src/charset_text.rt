//! Octets of a stated charset, read as text.

ghost use Rattle.std.specs.Prelude.{◌≡◌, ◌++◌, IfOk, OnOk, IfErr, string_bytes, encode_utf8_all};
ghost use Rattle.std.specs.Char.Utf16.{utf16_lossy_chars};
ghost use Rattle.gsm_alphabet.specs.Charsets.{text_in, IsTextIn, IsFaultIn};
ghost use Rattle.gsm_alphabet.specs.Ucs2.{units_of};

use kn_base::{Charset, Memory};
use std::alloc::Global;

/// Why octets are no text.
#[derive(Clone, Copy, Debug, PartialEq)]
pub enum CharsetFault {
    /// They aren't UTF-8 (RFC 3629). Their longest front that is has `at` octets.
    BadUtf8 { at: usize },
    /// They are an odd number of octets, `len`, where UTF-16 has two in each unit (RFC 2781).
    Odd { len: usize },
    /// There was no memory for the text.
    Memory,
}

impl From<Memory> for CharsetFault {
    ghost use Rattle.gsm_alphabet.specs.declared.charset_text.CharsetFault.TheVariants.{Memory};

    ghost from_gives = { λ _ fault. fault ≡ Memory };

    fn from(_memory: Memory) -> CharsetFault {
        CharsetFault::Memory
    }
}

/// The text of octets in a charset. In UTF-16 a surrogate without its partner is U+FFFD; each octet is a
/// character of ISO 8859-1.
pub fn from_charset(alloc: Global, octets: &[u8], charset: Charset) -> Result<String, CharsetFault>
    ensures text { IfOk result (λ text. string_bytes text ≡ text_in charset octets.now) }
    ensures is_text { OnOk result (IsTextIn charset octets.now) }
    ensures fault { IfErr result (λ fault. IsFaultIn charset octets.now fault) }
{
    match charset {
        Charset::Utf8 => utf8_text(alloc, octets),
        Charset::Latin1 => Ok(latin1_text(alloc, octets)?),
        Charset::Utf16Be => {
            if octets.len() % 2 == 1 {
                return Err(CharsetFault::Odd { len: octets.len() });
            }
            Ok(utf16_text(alloc, octets)?)
        }
    }
}

fn utf8_text(alloc: Global, octets: &[u8]) -> Result<String, CharsetFault>
    ensures text { IfOk result (λ text. string_bytes text ≡ octets.now) }
    ensures is_text { OnOk result (IsTextIn Charset.Utf8 octets.now) }
    ensures fault { IfErr result (λ fault. IsFaultIn Charset.Utf8 octets.now fault) }
{
    match str::from_utf8(octets) {
        Ok(text) => Ok(copied(alloc, text)?),
        Err(fault) => Err(CharsetFault::BadUtf8 {
            at: fault.valid_up_to(),
        }),
    }
}

fn copied(alloc: Global, text: &str) -> Result<String, Memory>
    ensures { IfOk result (λ copy. string_bytes copy ≡ text.now) }
{
    Ok(String::from_str(alloc, text)?)
}

fn latin1_text(alloc: Global, octets: &[u8]) -> Result<String, Memory>
    ensures { IfOk result (λ text. string_bytes text ≡ encode_utf8_all octets.now) }
{
    let mut text = String::new(alloc);
    for octet in octets {
        text.push(char::from(*octet))?;
    }
    Ok(text)
}

fn utf16_text(alloc: Global, octets: &[u8]) -> Result<String, Memory>
    ensures { IfOk result (λ text. string_bytes text ≡ encode_utf8_all (utf16_lossy_chars (units_of octets.now))) }
{
    let units = units_of(alloc, octets)?;
    Ok(String::from_utf16_lossy(alloc, units.as_slice())?)
}

// The units of UTF-16 that pairs of octets write.
fn units_of(alloc: Global, octets: &[u8]) -> Result<Vec<u16>, Memory>
    ensures { IfOk result (λ units. units.items ≡ units_of octets.now) }
{
    let mut units = Vec::new(alloc);
    for i in 0..octets.len() / 2 {
        units.push(u16::from_be_bytes([octets[2 * i], octets[2 * i + 1]]))?;
    }
    Ok(units)
}
