//! Acts that stand in a line, one word each.

use crate::cut_at;
use kn_base::{Memory, Octets};
use std::alloc::Global;

/// What is acted on, word by word.
pub trait Acts {
    /// Does what a word says, and puts last what it came to.
    fn act(&mut self, alloc: Global, word: &[u8], report: &mut Octets) -> Result<(), Memory>;
}

/// Does what each word of a text says, and puts a bar behind what it came to.
pub fn put_acts<A: Acts>(
    alloc: Global,
    acts: &mut A,
    text: &[u8],
    report: &mut Octets,
) -> Result<(), Memory> {
    let mut rest = text;
    for _ in 0..text.len() {
        if rest.is_empty() {
            break;
        }
        let (word, behind) = cut_at(rest, b' ');
        rest = behind;
        acts.act(alloc, word, report)?;
        report.extend_from_slice(b" | ")?;
    }
    Ok(())
}

/// Puts an item last in a list, where there is memory for both.
pub fn put_last<T: Drop>(list: &mut Vec<T>, item: Result<T, Memory>) -> Result<(), Memory> {
    list.push(item?)?;
    Ok(())
}

/// Two values, where there is memory for both. It knows neither type, so a function with many values has one way out.
pub fn both<A: Drop, B: Drop>(
    first: Result<A, Memory>,
    second: Result<B, Memory>,
) -> Result<(A, B), Memory> {
    Ok((first?, second?))
}
