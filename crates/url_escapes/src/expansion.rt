//! Templates with values in the places of their escapes.

ghost use Rattle.std.specs.Prelude.{◌≡◌, ◌++◌, ◌<◌, ◌^◌, IfOk, OnOk};
ghost use Rattle.url_escapes.specs.Expansion.{kept, pair_text, left_by_pair, expanded};

use crate::escape::escape_of;
use crate::style::write_styled;
use crate::value::write_value;
use crate::words::{behind_first, left_by};
use crate::{Facts, Style};
use kn_base::{Memory, Octets};
use std::alloc::Global;

/// The octet that begins an escape.
const PERCENT: u8 = b'%';

/// Puts a pair that isn't an escape last: `%%` is `%`, and any other stays.
fn write_kept(out: &mut Octets, letter: u8) -> Result<(), Memory>
    ensures { OnOk result (out.new ≡ out.old ++ kept letter) }
{
    out.push(PERCENT)?;
    if letter == PERCENT {
        Ok(())
    } else {
        out.push(letter)
    }
}

/// Puts last what stands in the place of `%` and a letter.
fn write_pair(
    alloc: Global,
    out: &mut Octets,
    facts: &Facts,
    style: Style,
    unused: &[Octets],
    letter: u8,
) -> Result<(), Memory>
    requires { facts.now.time < 2 ^ 37 }
    ensures { OnOk result (out.new ≡ out.old ++ pair_text facts.now style unused.now letter) }
{
    match escape_of(letter) {
        None => write_kept(out, letter),
        Some(escape) => {
            let mut value = Octets::new(alloc);
            write_value(&mut value, facts, unused, escape)?;
            write_styled(out, value.as_slice(), style)
        }
    }
}

/// The words that `%` and a letter leave.
fn left_by_pair(unused: &[Octets], letter: u8) -> &[Octets]
    ensures { result.now ≡ left_by_pair unused.now letter }
{
    match escape_of(letter) {
        None => unused,
        Some(escape) => left_by(unused, escape),
    }
}

/// A template with the values of `facts` in the places of its escapes, written in a style: `%` and a letter are an escape.
/// What else the template has stays as it is in each style, `%` before any other octet and at the end too; `%%` is `%`.
/// The time of the facts is below 2^37 seconds. `Memory`.
pub fn expand(alloc: Global, template: &[u8], facts: &Facts, style: Style) -> Result<Octets, Memory>
    requires { facts.now.time < 2 ^ 37 }
    ensures { IfOk result (λ text. text ≡ expanded template.now facts.now style) }
{
    let mut text = Octets::new(alloc);
    let mut unused = behind_first(facts.words.as_slice());
    let mut in_pair = false;
    for octet in template {
        if in_pair {
            write_pair(alloc, &mut text, facts, style, unused, *octet)?;
            unused = left_by_pair(unused, *octet);
            in_pair = false;
        } else if *octet == PERCENT {
            in_pair = true;
        } else {
            text.push(*octet)?;
        }
    }
    if in_pair {
        text.push(PERCENT)?;
    }
    Ok(text)
}
