//! Codings and charsets by their names, and octets behind theirs.

use kn_base::{Charset, Memory, Octets, write_hex};
use line_cases::put_text;
use sms_record::Coding;

/// The name of a coding, behind a space.
pub fn coding_name(coding: Coding) -> &'static [u8] {
    match coding {
        Coding::Seven => b" seven",
        Coding::Eight => b" eight",
        Coding::Ucs2 => b" ucs2",
    }
}

/// The coding of a name; any other name than the first two is that of UCS-2.
pub fn coding_of(name: &[u8]) -> Coding {
    if name == b"seven".as_slice() {
        Coding::Seven
    } else if name == b"eight".as_slice() {
        Coding::Eight
    } else {
        Coding::Ucs2
    }
}

/// The name of a charset, behind a space.
pub fn charset_name(charset: Charset) -> &'static [u8] {
    match charset {
        Charset::Utf8 => b" utf8",
        Charset::Latin1 => b" latin1",
        Charset::Utf16Be => b" utf16be",
    }
}

/// Puts octets last, behind their name, in hex.
pub fn put_hex(report: &mut Octets, name: &[u8], octets: &[u8]) -> Result<(), Memory> {
    report.extend_from_slice(name)?;
    write_hex(report, octets)
}

/// Puts octets last, behind their name, as a text.
pub fn put_octets(report: &mut Octets, name: &[u8], octets: &[u8]) -> Result<(), Memory> {
    report.extend_from_slice(name)?;
    put_text(report, octets)
}
