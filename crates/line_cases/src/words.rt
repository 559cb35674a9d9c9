//! Words and items of a line.

use kn_base::{Memory, read_decimal};
use std::alloc::Global;

/// What stands before the first mark, and what stands behind it; all and nothing where there is none.
pub fn cut_at(text: &[u8], mark: u8) -> (&[u8], &[u8]) {
    for (at, octet) in text.iter().enumerate() {
        if *octet == mark {
            return (&text[..at], &text[at + 1..]);
        }
    }
    (text, &[])
}

/// The text without a blank before it and one behind it.
pub fn unpadded(text: &[u8]) -> &[u8] {
    let text = match text {
        [b' ', rest @ ..] => rest,
        _ => text,
    };
    match text {
        [rest @ .., b' '] => rest,
        _ => text,
    }
}

/// What stands before the first `|`, without the blanks beside it, and what stands behind it.
pub fn cut_item(text: &[u8]) -> (&[u8], &[u8]) {
    let (item, rest) = cut_at(text, b'|');
    (unpadded(item), unpadded(rest))
}

/// The words of a text, which stand between blanks.
pub fn words_of(alloc: Global, text: &[u8]) -> Result<Vec<&[u8]>, Memory> {
    let mut words = Vec::new(alloc);
    let mut rest = text;
    for _ in 0..text.len() {
        if rest.is_empty() {
            break;
        }
        let (word, behind) = cut_at(rest, b' ');
        rest = behind;
        words.push(word)?;
    }
    Ok(words)
}

/// The number that the digits of a text write, and 0 where they write none.
pub fn number(text: &[u8]) -> u64 {
    read_decimal(text, u64::MAX).unwrap_or(0)
}

/// The number that the digits of a text write, at most 255, and 0 where they write none.
pub fn octet(text: &[u8]) -> u8 {
    number(text).min(255) as u8
}

/// The numbers of a text, which stand between blanks.
pub fn numbers_of(alloc: Global, text: &[u8]) -> Result<Vec<u64>, Memory> {
    let mut numbers = Vec::new(alloc);
    for word in words_of(alloc, text)?.iter() {
        numbers.push(number(word))?;
    }
    Ok(numbers)
}
