//! What the fields of a head announce.

ghost use Rattle.std.specs.Prelude.{◌≡◌, length, map, All};
ghost use Rattle.std.specs.Str.{str_eq_ignore_ascii_case};
ghost use Rattle.std.specs.List.{list_any};
ghost use Rattle.httparse.specs.Spans.{IsHeaderWithin, header_bytes};
ghost use Rattle.http_text.specs.Head as head;
ghost use Rattle.http_text.specs.HeadSteps as spec;

use httparse::spans::HeaderSpan;

/// What a field may announce.
#[derive(Clone, Copy)]
pub(crate) enum Sign {
    /// The connection closes.
    Close,
    /// A body follows.
    Body,
}

impl Sign {
    // Whether a field announces it.
    fn is_in(self, name: &[u8], value: &[u8]) -> bool
        ensures { result ≡ spec.is_in self (name.now, value.now) }
    {
        match self {
            Sign::Close => is_same(name, b"connection") && is_same(value, b"close"),
            Sign::Body => {
                is_same(name, b"transfer-encoding")
                    || (is_same(name, b"content-length") && !is_zero(value))
            }
        }
    }
}

// Whether one of the fields announces it.
pub(crate) fn is_announced(octets: &[u8], fields: &[HeaderSpan], sign: Sign) -> bool
    requires { All (IsHeaderWithin (length octets.now)) fields.now }
    ensures { result ≡ list_any (spec.is_in sign) (map (header_bytes octets.now) fields.now) }
{
    for field in fields {
        if sign.is_in(field.name.of(octets), field.value.of(octets)) {
            return true;
        }
    }
    false
}

// Whether two words are the same, in any case.
fn is_same(word: &[u8], other: &[u8]) -> bool
    ensures { result ≡ str_eq_ignore_ascii_case word.now other.now }
{
    word.eq_ignore_ascii_case(other)
}

// Whether a text is a decimal number of value 0.
fn is_zero(digits: &[u8]) -> bool
    ensures { result ≡ head.is_zero digits.now }
{
    !digits.is_empty() && digits.iter().all(|d| *d == b'0')
}
