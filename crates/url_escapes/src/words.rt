//! The words that escapes use.

ghost use Rattle.std.specs.Prelude.{◌≡◌, ◌++◌, drop, map, IfOk, OnOk};
ghost use Rattle.url_escapes.specs.Value.{first_word, joined, tilde_octet, left_by};
ghost use Rattle.url_escapes.specs.Words.{is_blank, words};

use crate::escape::Escape;
use kn_base::{Items, Memory, Octets};
use std::alloc::Global;

/// Whether an octet separates words: a space, TAB, CR or LF.
fn is_blank(octet: u8) -> bool
    ensures { result ≡ is_blank octet }
{
    octet == b' ' || octet == b'\t' || octet == b'\r' || octet == b'\n'
}

/// The words of a text: what stands between runs of spaces, TABs, CRs and LFs. `Memory`.
pub fn split_words(alloc: Global, text: &[u8]) -> Result<Items<Octets>, Memory>
    ensures { IfOk result (λ found. found ≡ words text.now) }
{
    let mut found = Items::new(alloc);
    for piece in text.split(|&octet| is_blank(octet)) {
        if !piece.is_empty() {
            found.push(Octets::from_slice(alloc, piece)?)?;
        }
    }
    Ok(found)
}

/// The words behind the first.
pub(crate) fn behind_first(words: &[Octets]) -> &[Octets]
    ensures { result.now ≡ drop 1 words.now }
{
    if words.is_empty() { words } else { &words[1..] }
}

/// The words that an escape leaves.
pub(crate) fn left_by(unused: &[Octets], escape: Escape) -> &[Octets]
    ensures { result.now ≡ left_by unused.now escape }
{
    match escape {
        Escape::NextWord | Escape::NextWordTilde => behind_first(unused),
        Escape::OtherWords => &unused[..0],
        _ => unused,
    }
}

/// The first of some words, and nothing of none.
pub fn first_word(words: &[Octets]) -> &[u8]
    ensures { result.now ≡ first_word words.now }
{
    if words.is_empty() {
        &[]
    } else {
        words[0].as_slice()
    }
}

/// An octet with `*` as `~`.
fn tilde_octet(octet: u8) -> u8
    ensures { result ≡ tilde_octet octet }
{
    if octet == b'*' { b'~' } else { octet }
}

/// Puts a word last, with `*` as `~`.
pub(crate) fn write_tilded(out: &mut Octets, word: &[u8]) -> Result<(), Memory>
    ensures { OnOk result (out.new ≡ out.old ++ map tilde_octet word.now) }
{
    for octet in word {
        out.push(tilde_octet(*octet))?;
    }
    Ok(())
}

/// Puts words last, with a space between them.
pub(crate) fn write_joined(out: &mut Octets, words: &[Octets]) -> Result<(), Memory>
    ensures { OnOk result (out.new ≡ out.old ++ joined words.now) }
{
    out.extend_from_slice(first_word(words))?;
    for word in behind_first(words) {
        out.push(b' ')?;
        out.extend_from_slice(word.as_slice())?;
    }
    Ok(())
}
