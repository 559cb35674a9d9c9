//! A message that a centre says, and its parts as a frame has them.

ghost use Rattle.std.specs.Prelude.{◌≡◌, ◌%◌, map, take, IfOk};
ghost use Rattle.std.specs.Char.{is_ascii_digit};
ghost use Rattle.std.specs.List.{list_all};
ghost use Rattle.sms_record.specs.Limits.{most_digits as DIGITS};
ghost use Rattle.config_values.specs.Values as values;
ghost use Rattle.link_core.specs.Arrivals as spec;

use kn_base::{Charset, Memory, Octets};
use sms_record::limits::{MOST_BODY, MOST_DIGITS, MOST_TEXT};
use sms_record::{Address, Coding, Sms};
use std::alloc::Global;

/// The charset of what is told of a message.
fn charset_of(coding: Coding) -> Charset
    ensures { result ≡ spec.charset_of coding }
{
    match coding {
        Coding::Seven | Coding::Eight => Charset::Utf8,
        Coding::Ucs2 => Charset::Utf16Be,
    }
}

/// A message of which nothing but this is known. It takes no memory.
pub fn arrival(
    alloc: Global,
    parties: (Address, Address),
    coding: Coding,
    class: Option<u8>,
    udh: Octets,
    body: Octets,
) -> Sms
    ensures { result ≡ spec.arrival_of parties.0 parties.1 coding class udh body }
{
    let (sender, receiver) = parties;
    Sms {
        sender,
        receiver,
        coding,
        class,
        udh,
        body,
        total: 1,
        part: 1,
        smsc: Octets::new(alloc),
        validity: 0,
        deferred: 0,
        mask: 0,
        url: Octets::new(alloc),
        account: Octets::new(alloc),
        service: Octets::new(alloc),
        charset: charset_of(coding),
        time: 0,
    }
}

/// The first octets, so many at most.
fn front(octets: &[u8], most: usize) -> &[u8]
    ensures { result.now ≡ take most octets.now }
{
    if octets.len() <= most {
        octets
    } else {
        &octets[..most]
    }
}

/// Whether a `+` stands first, and what stands behind it.
fn cut_plus(text: &[u8]) -> (bool, &[u8])
    ensures plus { result.0 ≡ values.has_plus text.now }
    ensures rest { result.1.now ≡ values.behind_plus text.now }
{
    match text {
        [b'+', rest @ ..] => (true, rest),
        _ => (false, text),
    }
}

fn are_digits(text: &[u8]) -> bool
    ensures { result ≡ list_all is_ascii_digit text.now }
{
    text.iter().all(|octet| octet.is_ascii_digit())
}

/// Whether these are as many digits as a number may have.
fn is_number(text: &[u8]) -> bool
    ensures { result ≡ values.is_digits DIGITS text.now }
{
    !text.is_empty() && text.len() <= usize::from(MOST_DIGITS) && are_digits(text)
}

/// An address as a frame has it: a number, which has a `+` where one stands first or the frame says that it is international, or a text, of
/// which 64 octets are kept.
///
/// # Errors
/// `Memory`.
pub fn heard_address(alloc: Global, international: bool, text: &[u8]) -> Result<Address, Memory>
    ensures { IfOk result (λ address. address ≡ spec.address_of international text.now) }
{
    let (plus, digits) = cut_plus(text);
    if is_number(digits) {
        let plus = international || plus;
        let digits = Octets::from_slice(alloc, digits)?;
        return Ok(Address::Number { plus, digits });
    }
    let text = Octets::from_slice(alloc, front(text, usize::from(MOST_TEXT)))?;
    Ok(Address::Text(text))
}

/// Octets without their top bits.
fn septets_of(alloc: Global, octets: &[u8]) -> Result<Octets, Memory>
    ensures { IfOk result (λ septets. septets ≡ map (λ octet. octet % 128) octets.now) }
{
    let mut septets = Octets::new(alloc);
    for octet in octets {
        septets.push(*octet % 128)?;
    }
    Ok(septets)
}

/// A body of a coding as a frame has it. At most 2,048 octets are kept; septets lose their top bits, and of units of two octets one that is left
/// over is dropped.
///
/// # Errors
/// `Memory`.
pub fn heard_body(alloc: Global, coding: Coding, octets: &[u8]) -> Result<Octets, Memory>
    ensures { IfOk result (λ body. body ≡ spec.body_of coding octets.now) }
{
    let kept = front(octets, MOST_BODY as usize);
    match coding {
        Coding::Seven => septets_of(alloc, kept),
        Coding::Eight => Octets::from_slice(alloc, kept),
        Coding::Ucs2 => Octets::from_slice(alloc, &kept[..kept.len() - kept.len() % 2]),
    }
}
