//! Octets as text: `\r`, `\n` and `\0` are these octets, `\x1B` is the octet with these hex digits, and `\{N}c` is the octet
//! c, N times.

ghost use Rattle.std.specs.Prelude.{◌≤◌};

use crate::{cut_at, number};
use kn_base::{Memory, Octets, write_hex};
use std::alloc::Global;

/// The most octets that one escape stands for.
const MOST: u64 = 100_000;

/// The value of a hex digit, and 0 of another octet.
fn digit(octet: u8) -> u8
    ensures { result ≤ 15 }
{
    match octet {
        b'0'..=b'9' => octet - b'0',
        b'A'..=b'F' => octet - b'A' + 10,
        b'a'..=b'f' => octet - b'a' + 10,
        _ => 0,
    }
}

/// The first octet that a text stands for, and the text behind it.
fn one_octet(text: &[u8]) -> (u8, &[u8]) {
    match text {
        [] => (0, text),
        [b'\\', b'r', rest @ ..] => (b'\r', rest),
        [b'\\', b'n', rest @ ..] => (b'\n', rest),
        [b'\\', b'0', rest @ ..] => (0, rest),
        [b'\\', b'x', high, low, rest @ ..] => (16 * digit(*high) + digit(*low), rest),
        [octet, rest @ ..] => (*octet, rest),
    }
}

/// The first octets that a text stands for, which are one so many times, and the text behind them.
fn next_octets(text: &[u8]) -> (u8, u64, &[u8]) {
    match text {
        [b'\\', b'{', rest @ ..] => {
            let (times, rest) = cut_at(rest, b'}');
            let (octet, rest) = one_octet(rest);
            (octet, number(times).min(MOST), rest)
        }
        _ => {
            let (octet, rest) = one_octet(text);
            (octet, 1, rest)
        }
    }
}

/// The octets that a text stands for.
pub fn octets_of(alloc: Global, text: &[u8]) -> Result<Octets, Memory> {
    let mut octets = Octets::new(alloc);
    let mut rest = text;
    for _ in 0..text.len() {
        if rest.is_empty() {
            break;
        }
        let (octet, times, behind) = next_octets(rest);
        rest = behind;
        for _ in 0..times {
            octets.push(octet)?;
        }
    }
    Ok(octets)
}

/// Puts octets last, as text.
pub fn put_text(into: &mut Octets, octets: &[u8]) -> Result<(), Memory> {
    for octet in octets {
        match octet {
            b'\r' => into.extend_from_slice(b"\\r")?,
            b'\n' => into.extend_from_slice(b"\\n")?,
            0..=31 | 127 => put_escape(into, *octet)?,
            _ => into.push(*octet)?,
        }
    }
    Ok(())
}

/// Puts an octet last, by its hex digits.
fn put_escape(into: &mut Octets, octet: u8) -> Result<(), Memory> {
    into.extend_from_slice(b"\\x")?;
    write_hex(into, &[octet])
}
