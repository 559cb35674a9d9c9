//! One field of the settings, by the first variable of a name in its group.

ghost use Rattle.std.specs.Prelude.{◌≡◌, IfOk};
ghost use Rattle.config_groups.specs.Fields as spec;

use crate::group::Set;
use crate::role::first;
use config_values::{entries_of, number_of, sender_of, truth_of};
use kn_base::{Items, Memory, Octets};
use sms_record::Address;
use std::alloc::Global;

/// The value of a name, and what stands for it where there is none.
#[tactic(auto, unfolding(crate::specs::Fields::value))]
pub(crate) fn value<'a>(group: &'a [Set], name: &[u8], unset: &'a [u8]) -> &'a [u8]
    ensures { result.now ≡ spec.value name.now unset.now group.now }
{
    match first(group, name) {
        Some(set) => set.value.as_slice(),
        None => unset,
    }
}

/// A copy of such a value.
pub(crate) fn octets(
    alloc: Global,
    group: &[Set],
    name: &[u8],
    unset: &[u8],
) -> Result<Octets, Memory>
    ensures { IfOk result (λ octets. octets ≡ spec.value name.now unset.now group.now) }
{
    Octets::from_slice(alloc, value(group, name, unset))
}

/// Two values, each of them empty where there is none.
pub(crate) fn two(
    alloc: Global,
    group: &[Set],
    first: &[u8],
    second: &[u8],
) -> Result<(Octets, Octets), Memory>
    ensures first { IfOk result (λ two. two.0 ≡ spec.octets first.now group.now) }
    ensures second { IfOk result (λ two. two.1 ≡ spec.octets second.now group.now) }
{
    let first = octets(alloc, group, first, &[])?;
    let second = octets(alloc, group, second, &[])?;
    Ok((first, second))
}

/// A copy of the value of a name, where there is one.
#[tactic(auto, unfolding(crate::specs::Fields::optional))]
pub(crate) fn optional(alloc: Global, group: &[Set], name: &[u8]) -> Result<Option<Octets>, Memory>
    ensures { IfOk result (λ value. value ≡ spec.optional name.now group.now) }
{
    match first(group, name) {
        Some(set) => Ok(Some(Octets::from_slice(alloc, set.value.as_slice())?)),
        None => Ok(None),
    }
}

/// The number of a name.
#[tactic(auto, unfolding(crate::specs::Fields::number))]
pub(crate) fn number(group: &[Set], name: &[u8], unset: u64) -> u64
    ensures { result ≡ spec.number name.now unset group.now }
{
    match first(group, name) {
        Some(set) => number_of(set.value.as_slice()),
        None => unset,
    }
}

/// The number of a name, of which the table allows no greater one than a `u32`.
#[tactic(auto, unfolding(crate::specs::Fields::small))]
pub(crate) fn small(group: &[Set], name: &[u8], unset: u32) -> u32
    ensures { result ≡ spec.small name.now unset group.now }
{
    let number = number(group, name, u64::from(unset)).min(u64::from(u32::MAX));
    number as u32
}

/// The port of a name.
#[tactic(auto, unfolding(crate::specs::Fields::port))]
pub(crate) fn port(group: &[Set], name: &[u8], unset: u16) -> u16
    ensures { result ≡ spec.port name.now unset group.now }
{
    let number = number(group, name, u64::from(unset)).min(u64::from(u16::MAX));
    number as u16
}

/// The truth of a name.
#[tactic(auto, unfolding(crate::specs::Fields::truth))]
pub(crate) fn truth(group: &[Set], name: &[u8], unset: bool) -> bool
    ensures { result ≡ spec.truth name.now unset group.now }
{
    match first(group, name) {
        Some(set) => truth_of(set.value.as_slice()).unwrap_or(unset),
        None => unset,
    }
}

/// The entries of a name's list.
#[tactic(auto, unfolding(crate::specs::Fields::list))]
pub(crate) fn list(alloc: Global, group: &[Set], name: &[u8]) -> Result<Items<Octets>, Memory>
    ensures { IfOk result (λ list. list ≡ spec.list name.now group.now) }
{
    entries_of(alloc, value(group, name, &[]))
}

/// The address of a name.
#[tactic(auto, unfolding(crate::specs::Fields::sender))]
pub(crate) fn sender(alloc: Global, group: &[Set], name: &[u8]) -> Result<Option<Address>, Memory>
    ensures { IfOk result (λ sender. sender ≡ spec.sender name.now group.now) }
{
    sender_of(alloc, value(group, name, &[]))
}
