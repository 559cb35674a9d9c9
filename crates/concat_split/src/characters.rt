//! Whole characters of a text in each coding, and how much of it fits.

ghost use Rattle.std.specs.Prelude.{◌≡◌, ◌<◌, length, Some, if◌then◌else◌};
ghost use Rattle.concat_split.specs.Characters.{characters, septet_characters, unit_characters, is_high, is_low, units_of, IsFirst, Cuts};
ghost use Rattle.concat_split.specs.Parts.{front, is_among, broken};

use sms_record::Coding;

/// The septet that begins a pair (GSM 03.38 6.2.1).
const ESCAPE: u8 = 27;

/// How many octets the first character of septets has.
fn septet_len(text: &[u8]) -> usize
    requires { 0 < length text.now }
    ensures { IsFirst septet_characters text.now result }
{
    if text.len() > 1 && text[0] == ESCAPE {
        2
    } else {
        1
    }
}

/// How many octets the first character of UCS-2 units has.
fn unit_len(text: &[u8]) -> usize
    requires { 0 < length text.now }
    ensures { IsFirst unit_characters text.now result }
{
    if text.len() >= 4 && is_high(text[0]) && is_low(text[2]) {
        4
    } else {
        text.len().min(2)
    }
}

/// Whether a unit with this high octet is a high surrogate (RFC 2781 2.1).
fn is_high(octet: u8) -> bool
    ensures { result ≡ is_high octet }
{
    octet >= 216 && octet <= 219
}

/// Whether a unit with this high octet is a low surrogate (RFC 2781 2.1).
fn is_low(octet: u8) -> bool
    ensures { result ≡ is_low octet }
{
    octet >= 220 && octet <= 223
}

/// How many octets the first character of a text has.
pub(crate) fn first_len(coding: Coding, text: &[u8]) -> usize
    requires { 0 < length text.now }
    ensures { IsFirst (characters coding) text.now result }
{
    match coding {
        Coding::Seven => septet_len(text),
        Coding::Eight => 1,
        Coding::Ucs2 => unit_len(text),
    }
}

/// The units of so many octets.
pub(crate) fn units_of(coding: Coding, octets: usize) -> usize
    ensures { result ≡ units_of coding octets }
{
    match coding {
        Coding::Seven | Coding::Eight => octets,
        Coding::Ucs2 => octets / 2,
    }
}

/// Whether it is one of the characters of `separators`.
fn is_among(coding: Coding, separators: &[u8], character: &[u8]) -> bool
    ensures { result ≡ is_among (characters coding separators.now) character.now }
{
    let mut at = 0;
    while at < separators.len() {
        let rest = &separators[at..];
        let len = first_len(coding, rest);
        if &rest[..len] == character {
            return true;
        }
        at += len;
    }
    false
}

/// Where the last separator ends, after one more character that ends at `at`.
fn later(found: Option<usize>, is_separator: bool, at: usize) -> Option<usize>
    ensures { result ≡ (if is_separator then Some at else found) }
{
    if is_separator { Some(at) } else { found }
}

/// How many octets a part takes of the front of a text: the longest front of whole characters with at most `room` units,
/// up to and with the last separator where it has one. It takes no memory.
pub(crate) fn broken_len(coding: Coding, text: &[u8], room: usize, separators: &[u8]) -> usize
    ensures { Cuts coding text.now (broken (characters coding separators.now) (front coding room (characters coding text.now))) result }
{
    let mut at = 0;
    let mut left = room;
    let mut found = None;
    while at < text.len() {
        let rest = &text[at..];
        let len = first_len(coding, rest);
        let units = units_of(coding, len);
        if units > left {
            break;
        }
        at += len;
        left -= units;
        found = later(found, is_among(coding, separators, &rest[..len]), at);
    }
    found.unwrap_or(at)
}
