//! The names and values of a query, as a web form writes them (URL Standard 5.1).

ghost use Rattle.std.specs.Prelude.{◌≡◌, IfOk, map, option_copied};
ghost use Rattle.std.specs.List.{find};
ghost use Rattle.form_urlencoded.specs.Form.{decode, plus_to_space};
ghost use Rattle.sendsms_form.specs.Pairs as spec;

use form_urlencoded::raw_pairs;
use kn_base::{Items, Memory, Octets};
use percent_encoding::percent_decode;
use std::alloc::Global;

/// A name and a value, as the octets that they stand for.
#[derive(Drop)]
pub struct Pair {
    pub name: Octets,
    pub value: Octets,
}

/// The names and values of a query, in their order: `+` is a space, an escape its octet, and any other `%` stays.
pub fn read_pairs(alloc: Global, query: &[u8]) -> Result<Items<Pair>, Memory>
    ensures { IfOk result (λ given. given ≡ spec.pairs query.now) }
{
    let mut pairs = Items::new(alloc);
    for (name, value) in raw_pairs(query) {
        pairs.push(read_pair(alloc, name, value)?)?;
    }
    Ok(pairs)
}

fn read_pair(alloc: Global, name: &[u8], value: &[u8]) -> Result<Pair, Memory>
    ensures { IfOk result (λ pair. pair ≡ spec.decoded (name.now, value.now)) }
{
    Ok(Pair {
        name: read_octets(alloc, name)?,
        value: read_octets(alloc, value)?,
    })
}

// The octets that an encoded name or value stands for.
fn read_octets(alloc: Global, encoded: &[u8]) -> Result<Octets, Memory>
    ensures { IfOk result (λ octets. octets ≡ decode encoded.now) }
{
    let spaced = with_spaces(alloc, encoded)?;
    let mut octets = Vec::new(alloc);
    percent_decode(spaced.as_slice()).append_to(&mut octets)?;
    Ok(Octets::from_vec(octets))
}

// The octets, with a space for each `+`.
fn with_spaces(alloc: Global, encoded: &[u8]) -> Result<Vec<u8>, Memory>
    ensures { IfOk result (λ octets. octets.items ≡ map plus_to_space encoded.now) }
{
    let spaced = encoded
        .iter()
        .map(|&octet| if octet == b'+' { b' ' } else { octet });
    Ok(spaced.collect(alloc)?)
}

/// The first value under a name, empty where there is none.
pub fn value<'a>(pairs: &'a [Pair], name: &[u8]) -> &'a [u8]
    ensures { result.now ≡ spec.value name.now pairs.now }
{
    match first(pairs, name) {
        Some(pair) => pair.value.as_slice(),
        None => &[],
    }
}

// The first pair of a name.
fn first<'a>(pairs: &'a [Pair], name: &[u8]) -> Option<&'a Pair>
    ensures { option_copied result ≡ find (spec.is_named name.now) pairs.now }
{
    pairs.iter().find(|pair| pair.name.as_slice() == name)
}
