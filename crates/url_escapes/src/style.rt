//! How a value is written.

ghost use Rattle.std.specs.Prelude.{◌≡◌, ◌++◌, OnOk};
ghost use Rattle.url_escapes.specs.Style.{is_unreserved, url_octet, styled};

use kn_base::{Memory, Octets};
use percent_encoding::percent_encode_byte;

/// Where a template's values go.
#[derive(Clone, Copy, Debug, PartialEq)]
pub enum Style {
    /// Into a URL: what RFC 3986 calls unreserved stays (2.3), a space becomes `+`, and any other octet becomes `%` with its
    /// two hex digits in upper case (2.1).
    Url,
    /// Into a text: a value is written as it is.
    Plain,
}

/// Whether a URL holds the octet as it is (RFC 3986 2.3).
fn is_unreserved(octet: u8) -> bool
    ensures { result ≡ is_unreserved octet }
{
    octet.is_ascii_alphanumeric()
        || octet == b'-'
        || octet == b'.'
        || octet == b'_'
        || octet == b'~'
}

/// Puts an octet of a value last, as a URL holds it.
fn write_url_octet(out: &mut Octets, octet: u8) -> Result<(), Memory>
    ensures { OnOk result (out.new ≡ out.old ++ url_octet octet) }
{
    if is_unreserved(octet) {
        out.push(octet)
    } else if octet == b' ' {
        out.push(b'+')
    } else {
        out.extend_from_slice(percent_encode_byte(octet).as_bytes())
    }
}

/// Puts a value last, as a URL holds it.
fn write_url(out: &mut Octets, value: &[u8]) -> Result<(), Memory>
    ensures { OnOk result (out.new ≡ out.old ++ styled Style.Url value.now) }
{
    for octet in value {
        write_url_octet(out, *octet)?;
    }
    Ok(())
}

/// Puts a value last, in a style.
pub(crate) fn write_styled(out: &mut Octets, value: &[u8], style: Style) -> Result<(), Memory>
    ensures { OnOk result (out.new ≡ out.old ++ styled style value.now) }
{
    match style {
        Style::Url => write_url(out, value),
        Style::Plain => out.extend_from_slice(value),
    }
}
