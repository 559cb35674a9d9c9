//! Which bodies have a form in CIMD2.

ghost use Rattle.std.specs.Prelude.{◌≡◌, ◌≤◌, ◌==◌, ◌&&◌, not, length};
ghost use Rattle.std.specs.List.{list_all};
ghost use Rattle.gsm_alphabet.specs.Alphabet.{text_of};
ghost use Rattle.route_rules.specs.Carriage as spec;
ghost use Rattle.route_rules.specs.Steps as steps;

use crate::carriage::MESSAGE_OCTETS;
use config_values::is_text_octet;
use sms_record::Coding;

/// The septet that calls the extension of the alphabet (GSM 03.38 6.2.1.1).
const ESCAPE: u8 = 0x1B;

/// Whether the next septet stands behind an escape, where this one may stand behind one itself.
fn escapes(behind: bool, septet: u8) -> bool
    ensures { result ≡ (not behind && (septet == 27)) }
{
    !behind && septet == ESCAPE
}

/// Whether what a septet shows, behind an escape or not, is a letter, a digit or a mark. An escape shows nothing yet.
fn shows_plain(behind: bool, septet: u8) -> bool
    ensures { result ≡ steps.shows_plain behind septet }
{
    if behind {
        is_text_octet(septet) && !matches!(septet, b'(' | b')' | b'/' | b'=' | b'e')
    } else {
        septet == ESCAPE || is_text_octet(septet)
    }
}

/// Whether each character of these septets is a letter, a digit or a mark.
fn is_plain_text(septets: &[u8]) -> bool
    ensures { result ≡ spec.is_plain_text septets.now }
{
    let mut behind = false;
    for septet in septets {
        if !shows_plain(behind, *septet) {
            return false;
        }
        behind = escapes(behind, *septet);
    }
    true
}

/// How many characters septets are (GSM 03.38 6.2.1).
fn characters_len(septets: &[u8]) -> usize
    ensures value { result ≡ length (text_of septets.now) }
    ensures few { result ≤ length septets.now }
{
    let mut count = 0;
    let mut behind = false;
    for septet in septets {
        behind = escapes(behind, *septet);
        if behind {
            continue;
        }
        count += 1;
    }
    if behind { count + 1 } else { count }
}

/// Whether a body has a form in CIMD2 beside a header of so many octets.
pub(crate) fn goes_by_cimd2(coding: Coding, header: usize, body: &[u8]) -> bool
    requires { header ≤ 140 }
    ensures { result ≡ spec.goes_by_cimd2 coding header body.now }
{
    match coding {
        Coding::Seven => {
            is_plain_text(body) || 2 * characters_len(body) <= MESSAGE_OCTETS - header
        }
        Coding::Eight | Coding::Ucs2 => true,
    }
}
