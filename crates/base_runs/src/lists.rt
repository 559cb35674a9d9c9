//! Lists of octets and of items, and counts.

use kn_base::{Items, MemCalls, Memory, Octets, raised, write_decimal};
use line_cases::{cut_at, cut_item, number, numbers_of, put_named};
use std::alloc::Global;

/// Puts a list last, its length, and whether it is empty.
fn put_list(report: &mut Octets, list: &Octets) -> Result<(), Memory> {
    report.extend_from_slice(list.as_slice())?;
    put_named(report, b" of ", list.len() as u64)?;
    report.extend_from_slice(if list.is_empty() {
        b", empty | "
    } else {
        b" | "
    })
}

/// The list into which FIRST was pushed, behind which REST was put, and of which all but so many octets were cut off.
fn list_of(alloc: Global, first: &[u8], rest: &[u8], length: u64) -> Result<Octets, Memory> {
    let mut list = Octets::new(alloc);
    for octet in first {
        list.push(*octet)?;
    }
    list.extend_from_slice(rest)?;
    list.truncate(length as usize);
    Ok(list)
}

/// Puts a list, a copy of it, and the list of its vector last.
fn put_lists(alloc: Global, list: Octets, report: &mut Octets) -> Result<(), Memory> {
    put_list(report, &list)?;
    put_list(report, &Octets::from_slice(alloc, list.as_slice())?)?;
    put_list(report, &Octets::from_vec(list.into_vec()))
}

/// `octets FIRST REST LENGTH`: a list that is new, and that of FIRST, REST and LENGTH.
pub fn put_octets(alloc: Global, text: &[u8], report: &mut Octets) -> Result<(), Memory> {
    let (first, text) = cut_at(text, b' ');
    let (rest, length) = cut_at(text, b' ');
    put_list(report, &Octets::new(alloc))?;
    put_lists(alloc, list_of(alloc, first, rest, number(length))?, report)
}

/// The list into which the numbers were pushed.
fn items_of(alloc: Global, numbers: &[u64]) -> Result<Items<u64>, Memory> {
    let mut items = Items::new(alloc);
    for item in numbers {
        items.push(*item)?;
    }
    Ok(items)
}

/// Puts the items of a list last, and how many there are.
fn put_numbers(report: &mut Octets, items: &Items<u64>) -> Result<(), Memory> {
    for item in items.as_slice() {
        put_named(report, b"", *item)?;
        report.push(b' ')?;
    }
    put_named(report, b"of ", items.len() as u64)?;
    report.extend_from_slice(if items.is_empty() {
        b", empty | "
    } else {
        b" | "
    })
}

/// `items NUMBER ..`: a list that is new, and that of the vector of one into which these were pushed.
pub fn put_items(alloc: Global, text: &[u8], report: &mut Octets) -> Result<(), Memory> {
    put_numbers(report, &Items::new(alloc))?;
    let items = items_of(alloc, numbers_of(alloc, text)?.as_slice())?;
    put_numbers(report, &Items::from_vec(items.into_vec()))
}

/// Puts last whether each of the next calls is to fail.
fn put_calls(report: &mut Octets, calls: &mut MemCalls, count: u64) -> Result<(), Memory> {
    for _ in 0..count {
        report.extend_from_slice(if calls.next_fails() {
            b"fails "
        } else {
            b"goes "
        })?;
    }
    put_named(report, b"| ", calls.made())
}

/// `calls FAILING .. | COUNT AGAIN`: which of the first COUNT calls are to fail, and how many were made then; and the same of
/// AGAIN calls, anew.
pub fn put_all_calls(alloc: Global, text: &[u8], report: &mut Octets) -> Result<(), Memory> {
    let (failing, counts) = cut_item(text);
    let (count, again) = cut_at(counts, b' ');
    let mut calls = MemCalls::new(numbers_of(alloc, failing)?);
    put_calls(report, &mut calls, number(count))?;
    report.extend_from_slice(b" | ")?;
    put_calls(report, &mut calls.anew(), number(again))
}

/// `raised COUNT`: the count that comes next.
pub fn put_raised(text: &[u8], report: &mut Octets) -> Result<(), Memory> {
    write_decimal(report, raised(number(text)))
}
