//! Counting the lines of a head that isn't whole yet.

ghost use Rattle.std.specs.Prelude.{◌≡◌};
ghost use Rattle.httparse.specs.Pieces as pieces;
ghost use Rattle.http_text.specs.HeadSteps as spec;

use super::LINE_LIMIT;

/// Whether more header lines have begun than a head may have, of octets that are a front of a head.
pub(crate) fn has_too_many_lines(octets: &[u8]) -> bool
    ensures { result ≡ spec.has_too_many_lines octets.now }
{
    let lines = behind_blank(octets);
    let mut left = LINE_LIMIT + 1;
    for octet in lines {
        if left == 0 {
            return !is_newline(*octet);
        }
        if *octet == b'\n' {
            left -= 1;
        }
    }
    false
}

// The octets behind the empty lines at the front.
fn behind_blank(octets: &[u8]) -> &[u8]
    ensures { result.now ≡ spec.behind_blank octets.now }
{
    for (i, octet) in octets.iter().enumerate() {
        if !is_newline(*octet) {
            return &octets[i..];
        }
    }
    &[]
}

// Whether an octet is CR or LF.
fn is_newline(octet: u8) -> bool
    ensures { result ≡ pieces.is_newline octet }
{
    octet == b'\r' || octet == b'\n'
}
