//! The octets of entries, field by field.

use kn_base::{Memory, Octets};
use line_cases::{cut_at, numbers_of};
use std::alloc::Global;

/// What stands in front of the times of a record: from 123 to 0123456, eight-bit, one part, no reports.
const TO_NUMBER: &[u8] = b"\x00\x03123\x00\x070123456\x01\xFF\x00\x01\x01\x00";
/// The same up to the mask.
const TO_NUMBER_ASKING: &[u8] = b"\x00\x03123\x00\x070123456\x01\xFF\x00\x01\x01";
/// The same to a text, which no link takes.
const TO_TEXT: &[u8] = b"\x00\x03123\x02\x070123456\x01\xFF\x00\x01\x01\x00";
/// What stands behind them: no header, the body `hello`, no SMSC id, URL, account or service.
const CONTENTS: &[u8] = b"\x00\x00\x05hello\x00\x00\x00\x00\x00";
/// What stands behind the times of a record that asks for reports: the same with a URL of 44 octets.
const CONTENTS_TO_REPORT: &[u8] =
    b"\x00\x00\x05hello\x00\x00\x2Chttp://h/?t=%d&f=%F&a=%A&T=%T&P=%P&i=%i&I=%I\x00\x00";
/// The SMSC id `main` and the foreign id `A1`.
const KEY: &[u8] = b"\x00\x04main\x00\x02A1";
/// An empty SMSC id, or foreign id.
const NO_TEXT: &[u8] = b"\x00\x00";

/// A number of the act, and 0 where there are fewer.
pub(crate) fn nth(numbers: &[u64], at: usize) -> u64 {
    if at < numbers.len() { numbers[at] } else { 0 }
}

fn put_eight(into: &mut Octets, value: u64) -> Result<(), Memory> {
    into.extend_from_slice(&value.to_be_bytes())
}

fn put_four(into: &mut Octets, value: u64) -> Result<(), Memory> {
    into.extend_from_slice(&(value.min(65_535) as u32).to_be_bytes())
}

fn put_two(into: &mut Octets, value: u64) -> Result<(), Memory> {
    into.extend_from_slice(&(value.min(65_535) as u16).to_be_bytes())
}

/// A record that was asked for at a time, with these minutes.
fn put_record(
    into: &mut Octets,
    heading: &[u8],
    time: u64,
    (deferred, validity): (u64, u64),
) -> Result<(), Memory> {
    into.extend_from_slice(heading)?;
    put_four(into, validity)?;
    put_four(into, deferred)?;
    put_eight(into, time)?;
    into.extend_from_slice(CONTENTS)
}

/// A time, and so many records.
fn put_messages(into: &mut Octets, heading: &[u8], numbers: &[u64]) -> Result<(), Memory> {
    let time = nth(numbers, 0);
    let count = nth(numbers, 1).min(100);
    put_eight(into, time)?;
    put_two(into, count)?;
    for _ in 0..count {
        put_record(into, heading, time, (nth(numbers, 2), nth(numbers, 3)))?;
    }
    Ok(())
}

/// How many arrivals there are, and their numbers, which stand behind time and count; then the messages.
fn put_answered(into: &mut Octets, numbers: &[u64]) -> Result<(), Memory> {
    put_two(into, (numbers.len() as u64).saturating_sub(2))?;
    for (at, arrival) in numbers.iter().enumerate() {
        if at >= 2 {
            put_eight(into, *arrival)?;
        }
    }
    put_messages(into, TO_NUMBER, &[nth(numbers, 0), nth(numbers, 1)])
}

/// One message that asks for reports: its time, and the mask.
fn put_asked(into: &mut Octets, numbers: &[u64]) -> Result<(), Memory> {
    let time = nth(numbers, 0);
    put_eight(into, time)?;
    put_two(into, 1)?;
    into.extend_from_slice(TO_NUMBER_ASKING)?;
    into.push(nth(numbers, 1).min(31) as u8)?;
    into.extend_from_slice(&[0; 8])?;
    put_eight(into, time)?;
    into.extend_from_slice(CONTENTS_TO_REPORT)
}

/// A report under the key: its kind, and the time.
fn put_report(into: &mut Octets, numbers: &[u64]) -> Result<(), Memory> {
    into.push(4)?;
    into.extend_from_slice(KEY)?;
    into.push(nth(numbers, 0).min(255) as u8)?;
    into.extend_from_slice(b"\x00\x07id:A1 s")?;
    put_eight(into, nth(numbers, 1))
}

/// A message that ended: its number, its texts, and a time.
fn put_ended(into: &mut Octets, kind: u8, texts: &[u8], numbers: &[u64]) -> Result<(), Memory> {
    into.push(kind)?;
    put_eight(into, nth(numbers, 0))?;
    into.extend_from_slice(texts)?;
    put_eight(into, nth(numbers, 1))
}

fn put_kind(into: &mut Octets, kind: &[u8], numbers: &[u64]) -> Result<(), Memory> {
    if kind == b"accept".as_slice() {
        into.push(1)?;
        put_messages(into, TO_NUMBER, numbers)
    } else if kind == b"adrift".as_slice() {
        into.push(1)?;
        put_messages(into, TO_TEXT, numbers)
    } else if kind == b"acked".as_slice() {
        put_ended(into, 2, b"\x00\x00\x00\x00", numbers)
    } else if kind == b"asked".as_slice() {
        into.push(1)?;
        put_asked(into, numbers)
    } else if kind == b"taken".as_slice() {
        put_ended(into, 2, KEY, numbers)
    } else if kind == b"rejected".as_slice() {
        put_ended(into, 3, b"\x00\x00\x00\x00\x00\x00\x0B", numbers)
    } else if kind == b"expired".as_slice() {
        put_ended(into, 3, b"\x00\x00\x01", numbers)
    } else {
        put_other(into, kind, numbers)
    }
}

fn put_other(into: &mut Octets, kind: &[u8], numbers: &[u64]) -> Result<(), Memory> {
    if kind == b"reported".as_slice() {
        into.extend_from_slice(b"\x04\x00\x00\x00\x00\x01\x00\x00")?;
        put_eight(into, nth(numbers, 0))
    } else if kind == b"report".as_slice() {
        put_report(into, numbers)
    } else if kind == b"arrived".as_slice() {
        into.push(5)?;
        into.extend_from_slice(NO_TEXT)?;
        put_record(into, TO_NUMBER, 0, (0, 0))
    } else if kind == b"answered".as_slice() {
        into.push(6)?;
        put_answered(into, numbers)
    } else if kind == b"called".as_slice() {
        into.push(7)?;
        put_eight(into, nth(numbers, 0))?;
        put_two(into, 200)
    } else if kind == b"dropped".as_slice() {
        into.push(8)?;
        put_eight(into, nth(numbers, 0))?;
        into.push(0)
    } else {
        Ok(())
    }
}

/// The octets of the entry that an act is. An act of another kind has none.
pub(crate) fn entry_octets(alloc: Global, act: &[u8]) -> Result<Octets, Memory> {
    let (kind, rest) = cut_at(act, b' ');
    let numbers = numbers_of(alloc, rest)?;
    let mut into = Octets::new(alloc);
    put_kind(&mut into, kind, numbers.as_slice())?;
    Ok(into)
}
