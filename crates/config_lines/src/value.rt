//! The value of a variable, in quotation marks or without.

ghost use Rattle.std.specs.Prelude.{◌≡◌, false, IfOk};
ghost use Rattle.config_lines.specs.Line.{escaped as escaped_by, quoted as quoted_by, value_of as value_by};

use kn_base::{Memory, Octets};
use std::alloc::Global;

/// The octet that an escape stands for, by the one behind its backslash.
fn escaped(code: u8) -> Option<u8>
    ensures { result ≡ escaped_by code }
{
    match code {
        b'\\' => Some(b'\\'),
        b'"' => Some(b'"'),
        b'n' => Some(b'\n'),
        b'r' => Some(b'\r'),
        b't' => Some(b'\t'),
        b'0' => Some(0),
        _ => None,
    }
}

/// The text in quotation marks, of what stands behind the first of them.
#[tactic(auto, using(crate::proofs::Quotes::one_read, crate::proofs::Quotes::plain_at))]
fn quoted(alloc: Global, text: &[u8]) -> Result<Option<Octets>, Memory>
    ensures { IfOk result (λ value. value ≡ quoted_by false text.now) }
{
    let mut value = Octets::new(alloc);
    let mut escaping = false;
    for (at, octet) in text.iter().enumerate() {
        if escaping {
            let Some(octet) = escaped(*octet) else {
                return Ok(None);
            };
            value.push(octet)?;
            escaping = false;
            continue;
        }
        if *octet == b'"' {
            if at + 1 < text.len() {
                return Ok(None);
            }
            return Ok(Some(value));
        }
        if *octet == b'\\' {
            escaping = true;
            continue;
        }
        value.push(*octet)?;
    }
    Ok(None)
}

/// The value that octets without blanks around them write, if they are one.
pub(crate) fn value_of(alloc: Global, octets: &[u8]) -> Result<Option<Octets>, Memory>
    ensures { IfOk result (λ value. value ≡ value_by octets.now) }
{
    match octets {
        [b'"', rest @ ..] => quoted(alloc, rest),
        _ => Ok(Some(Octets::from_slice(alloc, octets)?)),
    }
}
