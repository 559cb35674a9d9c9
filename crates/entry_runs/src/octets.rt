//! Octets as a case writes them.

use kn_base::{HexFault, Memory, Octets, read_hex};
use line_cases::{cut_at, number, words_of};
use std::alloc::Global;

/// The record of the message `hello` from 123 to 0123456, asked for by `tester` at second 1,000.
const HELLO: &[u8] = &[
    // from the number 123
    0, 3, b'1', b'2', b'3', // to the number 0123456
    0, 7, b'0', b'1', b'2', b'3', b'4', b'5', b'6', // septets, no class, UTF-8, part 1 of 1, no reports
    0, 0xFF, 0, 1, 1, 0, // no end, at once, at second 1,000
    0, 0, 0, 0, 0, 0, 0, 0, 0, 0, 0, 0, 0, 0, 0x03, 0xE8, // no header
    0, // the body
    0, 5, b'h', b'e', b'l', b'l', b'o', // any link, no URL, no account
    0, 0, 0, 0, // the service
    6, b't', b'e', b's', b't', b'e', b'r',
];

/// The octets of a word.
fn octets_of_word(alloc: Global, word: &[u8]) -> Result<Octets, Memory> {
    if word == b"hello".as_slice() {
        return Octets::from_slice(alloc, HELLO);
    }
    match read_hex(alloc, word) {
        Ok(octets) => Ok(octets),
        Err(HexFault::Memory) => Err(Memory),
        Err(_) => Ok(Octets::new(alloc)),
    }
}

/// Puts the octets of a word last, or so many times those behind its `*`.
fn put_word(alloc: Global, word: &[u8], into: &mut Octets) -> Result<(), Memory> {
    let (times, repeated) = cut_at(word, b'*');
    if repeated.is_empty() {
        return into.extend_from_slice(octets_of_word(alloc, word)?.as_slice());
    }
    let octets = octets_of_word(alloc, repeated)?;
    for _ in 0..number(times) {
        into.extend_from_slice(octets.as_slice())?;
    }
    Ok(())
}

/// The octets of words, one after the other. A word that is no hex stands for none.
pub fn octets_of_words(alloc: Global, text: &[u8]) -> Result<Octets, Memory> {
    let mut octets = Octets::new(alloc);
    for word in words_of(alloc, text)?.as_slice() {
        put_word(alloc, word, &mut octets)?;
    }
    Ok(octets)
}
