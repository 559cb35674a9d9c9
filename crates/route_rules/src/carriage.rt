//! What a link can carry at all, whatever its rule says.

ghost use Rattle.std.specs.Prelude.{◌≡◌, ◌≤◌};
ghost use Rattle.sms_record.specs.Room.{cap};
ghost use Rattle.config_values.specs.Values.{is_sendable};
ghost use Rattle.route_rules.specs.Carriage as spec;

use crate::LinkKind;
use crate::cimd2::goes_by_cimd2;
use config_values::is_sendable_text;
use sms_record::{Address, Coding, Sms};

/// The octets that one short message has for a header and a body together (GSM 03.40 9.2.3.16).
pub(crate) const MESSAGE_OCTETS: usize = 140;

fn is_number(receiver: &Address) -> bool
    ensures { result ≡ spec.is_number receiver.now }
{
    matches!(receiver, Address::Number { .. })
}

fn is_sendable(sender: &Address) -> bool
    ensures { result ≡ is_sendable sender.now }
{
    match sender {
        Address::Number { .. } => true,
        Address::Text(text) => is_sendable_text(text.as_slice()),
    }
}

/// How many octets the header that goes out has (GSM 03.40 9.2.3.24.1).
fn outgoing_len(sms: &Sms) -> usize
    ensures { result ≡ spec.outgoing_len sms.now }
{
    let own = sms.udh.as_slice().len();
    if sms.total <= 1 {
        own
    } else if own == 0 {
        6
    } else {
        own + 5
    }
}

/// The units of a body.
fn units(coding: Coding, body: &[u8]) -> usize
    ensures { result ≡ spec.units coding body.now }
{
    match coding {
        Coding::Seven | Coding::Eight => body.len(),
        Coding::Ucs2 => body.len() / 2,
    }
}

/// The units that one message has room for beside a header of so many octets (GSM 03.40 9.2.3.16).
fn cap(coding: Coding, header: usize) -> usize
    ensures { result ≡ cap coding header }
{
    let octets = MESSAGE_OCTETS.saturating_sub(header);
    match coding {
        Coding::Seven => octets * 8 / 7,
        Coding::Eight => octets,
        Coding::Ucs2 => octets / 2,
    }
}

/// Whether a body fits beside a header of so many octets in one message.
fn fits(coding: Coding, header: usize, body: &[u8]) -> bool
    ensures { result ≡ spec.fits coding header body.now }
{
    header <= MESSAGE_OCTETS && units(coding, body) <= cap(coding, header)
}

/// Whether the protocol has a form for such a body.
fn goes_by(kind: LinkKind, coding: Coding, header: usize, body: &[u8]) -> bool
    requires { header ≤ 140 }
    ensures { result ≡ spec.goes_by kind coding header body.now }
{
    match kind {
        LinkKind::Smpp | LinkKind::Ucp => true,
        LinkKind::Cimd2 => goes_by_cimd2(coding, header, body),
    }
}

/// Whether a link of this protocol can carry a message.
///
/// The receiver has to be a number, and the sender one too, or a short text of letters, digits and marks (up to eleven); the header
/// that goes out may have 140 octets, and the body as many units as fit beside it: septets, octets or UCS-2 units. The
/// header that goes out is the message's own, with 5 octets more where the message is one of several parts, or 6 where it has none of
/// its own. Over CIMD2 septets go as text where each shows a letter, a digit or a mark; others go as UCS-2, and are carried where that
/// form and the header have at most 140 octets together. It takes no memory.
pub fn carries(kind: LinkKind, sms: &Sms) -> bool
    ensures { result ≡ spec.carries kind sms.now }
{
    let header = outgoing_len(sms);
    let body = sms.body.as_slice();
    is_number(&sms.receiver)
        && is_sendable(&sms.sender)
        && fits(sms.coding, header, body)
        && goes_by(kind, sms.coding, header, body)
}
