//! The shapes of heads: each is made longer at another place.

use kn_base::{Memory, Octets};
use std::alloc::Global;

/// More octets than any head or connection has.
const MOST: u64 = 2_000_000;

/// What stands in front of the octets that fill a head, these octets, and what stands behind them.
fn shape_of(name: &[u8]) -> (&'static [u8], u8, &'static [u8]) {
    match name {
        b"method" => (b"", b'A', b" / HTTP/1.1\r\n\r\n"),
        b"target" => (b"GET /", b'a', b" HTTP/1.1\r\n\r\n"),
        b"name" => (b"GET /x HTTP/1.1\r\n", b'a', b": b\r\n\r\n"),
        b"value" => (b"GET /x HTTP/1.1\r\na: ", b'b', b"\r\n\r\n"),
        b"blank" => (b"", b'\n', b"GET /x HTTP/1.1\r\n\r\n"),
        b"short" => (b"GET /", b'a', b"\r\n"),
        _ => (b"GET /x HTTP/1.1\r\n", b'b', b"\r\n"),
    }
}

/// Puts an octet last so often.
fn put_times(octets: &mut Octets, octet: u8, times: u64) -> Result<(), Memory> {
    for _ in 0..times.min(MOST) {
        octets.push(octet)?;
    }
    Ok(())
}

/// Puts 64 header lines last that have so many octets together, or a few less.
fn put_lines(octets: &mut Octets, octet: u8, room: u64) -> Result<(), Memory> {
    for _ in 0..64 {
        octets.extend_from_slice(b"a: ")?;
        put_times(octets, octet, (room / 64).saturating_sub(5))?;
        octets.extend_from_slice(b"\r\n")?;
    }
    Ok(())
}

/// Puts a long target last, and behind it 64 short header lines.
fn put_short_lines(octets: &mut Octets, octet: u8, room: u64) -> Result<(), Memory> {
    put_times(octets, octet, room.saturating_sub(64 * 5))?;
    octets.extend_from_slice(b" HTTP/1.1\r\n")?;
    for _ in 0..64 {
        octets.extend_from_slice(b"a:b\r\n")?;
    }
    Ok(())
}

/// A head of a shape with so many octets. `lines` has as many as 64 lines of one length make, and `small` has no room.
fn head_of(alloc: Global, name: &[u8], len: u64) -> Result<Octets, Memory> {
    let (front, octet, back) = shape_of(name);
    let room = len
        .saturating_sub(front.len() as u64)
        .saturating_sub(back.len() as u64);
    let mut head = Octets::from_slice(alloc, front)?;
    match name {
        b"lines" => put_lines(&mut head, octet, room)?,
        b"short" => put_short_lines(&mut head, octet, room.saturating_sub(11))?,
        b"small" => {}
        _ => put_times(&mut head, octet, room)?,
    }
    head.extend_from_slice(back)?;
    Ok(head)
}

/// Heads of a shape one behind the other, of HEAD octets each, TOTAL octets in all.
pub fn text_of(alloc: Global, name: &[u8], head: u64, total: u64) -> Result<Octets, Memory> {
    let head = head_of(alloc, name, head)?;
    let mut text = Octets::new(alloc);
    let total = total.min(MOST) as usize;
    for _ in 0..total {
        if text.len() >= total {
            break;
        }
        text.extend_from_slice(head.as_slice())?;
    }
    text.truncate(total);
    Ok(text)
}
