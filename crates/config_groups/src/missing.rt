//! The first variable that is missing.

ghost use Rattle.std.specs.Prelude.{◌≡◌, Some, IfOk, map, option_copied};
ghost use Rattle.config_groups.specs.Missing as spec;
ghost use Rattle.config_groups.specs.Table as table;

use crate::fault::stands;
use crate::group::Set;
use crate::role::{Role, has, role_of, room_behind, whole_room};
use crate::table::{CORE, Need, Row, rows};
use kn_base::{Items, Memory, Octets, raised};
use std::alloc::Global;

/// Whether a group lacks a variable that it needs.
fn is_lacking(need: Need, name: &[u8], group: &[Set]) -> bool
    ensures { result ≡ spec.is_lacking (table.plain_need need) name.now group.now }
{
    match need {
        Need::Free => false,
        Need::Always => !stands(group, name),
        Need::Without(other) => !stands(group, name) && !stands(group, other),
    }
}

/// The name of the first of these rows that such a group needs and lacks.
fn lacking_in(rows: &[Row], role: Role, group: &[Set]) -> Option<&'static [u8]>
    ensures { option_copied result ≡ spec.lacking_in role group.now (map table.plain rows.now) }
{
    for (at, row) in rows.iter().enumerate() {
        let Row(section, name, _, need) = *row;
        if has(role, section) && is_lacking(need, name, group) {
            return Some(name);
        }
    }
    None
}

/// The name of the first variable that a group needs and lacks.
#[tactic(auto, unfolding(crate::specs::Missing::lacking))]
fn lacking(role: Role, group: &[Set]) -> Option<&'static [u8]>
    ensures { option_copied result ≡ spec.lacking role group.now }
{
    lacking_in(rows(), role, group)
}

fn missing(alloc: Global, number: u64, name: &[u8]) -> Result<Option<(u64, Octets)>, Memory>
    ensures { IfOk result (λ missing. missing ≡ Some (number, name.now)) }
{
    Ok(Some((number, Octets::from_slice(alloc, name)?)))
}

/// The number of the first group that lacks a variable that it needs, and that variable's name; or how many groups there are, and
/// `core`, where there is no group of it. `Memory`.
#[tactic(auto, unfolding(crate::specs::Missing::first_missing))]
pub(crate) fn first_missing(
    alloc: Global,
    groups: &[Items<Set>],
) -> Result<Option<(u64, Octets)>, Memory>
    ensures { IfOk result (λ missing. missing ≡ spec.first_missing groups.now) }
{
    let mut room = whole_room();
    let mut number = 0;
    for group in groups {
        let role = role_of(room, group.as_slice());
        if let Some(name) = lacking(role, group.as_slice()) {
            return missing(alloc, number, name);
        }
        room = room_behind(room, role);
        number = raised(number);
    }
    if room.core == 0 {
        return Ok(None);
    }
    missing(alloc, number, CORE)
}
