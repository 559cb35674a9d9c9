//! A value that is a list.

ghost use Rattle.std.specs.Prelude.{◌≡◌, length, IfOk};
ghost use Rattle.std.specs.List.{list_all};
ghost use Rattle.config_values.specs.Values as spec;

use kn_base::{Items, Memory, Octets};
use std::alloc::Global;

/// What stands between entries.
const SEPARATOR: u8 = b';';

/// The most entries of a list.
const MOST_ENTRIES: usize = 1_000;

/// The most octets of an entry.
const MOST_ENTRY: usize = 64;

/// How many entries a value has.
fn count_entries(value: &[u8]) -> usize
    ensures { result ≡ length (spec.entries value.now) }
{
    value
        .split(|&octet| octet == SEPARATOR)
        .filter(|entry| !entry.is_empty())
        .count()
}

/// Whether each entry has at most 64 octets.
fn are_short(value: &[u8]) -> bool
    ensures { result ≡ list_all spec.is_entry (spec.entries value.now) }
{
    value
        .split(|&octet| octet == SEPARATOR)
        .filter(|entry| !entry.is_empty())
        .all(|entry| entry.len() <= MOST_ENTRY)
}

/// Whether a value has at most 1,000 entries, each of at most 64 octets.
pub(crate) fn is_list(value: &[u8]) -> bool
    ensures { result ≡ spec.is_list value.now }
{
    count_entries(value) <= MOST_ENTRIES && are_short(value)
}

/// The entries of a list: what stands between `;`, without those that are empty. `Memory`.
pub fn entries_of(alloc: Global, value: &[u8]) -> Result<Items<Octets>, Memory>
    ensures { IfOk result (λ entries. entries ≡ spec.entries value.now) }
{
    let mut entries = Items::new(alloc);
    for entry in value.split(|&octet| octet == SEPARATOR) {
        if !entry.is_empty() {
            entries.push(Octets::from_slice(alloc, entry)?)?;
        }
    }
    Ok(entries)
}
