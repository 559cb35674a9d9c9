//! The first value that is outside its range, in the order of reading.

ghost use Rattle.std.specs.Prelude.{◌≡◌, ◌<◌, ◌≤◌, length, drop, map};
ghost use Rattle.std.specs.List.{list_any};
ghost use Rattle.config_groups.specs.Roles.{has_name};
ghost use Rattle.config_groups.specs.Table as table;
ghost use Rattle.config_groups.specs.Faults as spec;

use crate::group::Set;
use crate::role::{Role, Room, has, role_of, room_behind, whole_room};
use crate::table::{GROUP, Range, Row, is_in, rows};
use config_values::characters;
use kn_base::Items;

/// One more than the characters that the texts of a group have at most.
const TEXT_ROOM: usize = 31;

/// Where a line stands.
#[derive(Clone, Copy)]
pub(crate) struct Place {
    /// The number of its file in the order of reading, from 0.
    pub(crate) file: u32,
    /// Its number in the file, from 1.
    pub(crate) line: u64,
}

/// What a variable may hold, by the first of these rows that has its name in such a group.
fn range_in(rows: &[Row], role: Role, name: &[u8]) -> Option<Range>
    ensures { result ≡ spec.range_in role name.now (map table.plain rows.now) }
{
    for (at, row) in rows.iter().enumerate() {
        let Row(section, row_name, range, _) = *row;
        if has(role, section) && row_name == name {
            return Some(range);
        }
    }
    None
}

/// What a variable may hold, where such a group has one of this name.
#[tactic(auto, unfolding(crate::specs::Faults::range_of))]
pub(crate) fn range_of(role: Role, name: &[u8]) -> Option<Range>
    ensures { result ≡ spec.range_of role name.now }
{
    range_in(rows(), role, name)
}

/// Whether a variable of this name stands there.
pub(crate) fn stands(sets: &[Set], name: &[u8]) -> bool
    ensures { result ≡ list_any (has_name name.now) sets.now }
{
    sets.iter().any(|set| set.name.as_slice() == name)
}

fn is_text(range: Option<Range>) -> bool
    ensures { result ≡ spec.is_text range }
{
    matches!(range, Some(Range::Text))
}

/// Whether a variable is a text that goes into each part, and the first of its name.
fn is_counted(role: Role, before: &[Set], set: &Set) -> bool
    ensures { result ≡ spec.is_counted role before.now set.now }
{
    let name = set.name.as_slice();
    is_text(range_of(role, name)) && !stands(before, name)
}

/// How many characters a variable counts for among the texts of its group.
fn text_len(role: Role, before: &[Set], set: &Set) -> usize
    ensures { result ≡ spec.text_len role before.now set.now }
{
    if is_counted(role, before, set) {
        characters(set.value.as_slice())
    } else {
        0
    }
}

/// Whether such a text stands in a group from this place on.
fn has_counted(role: Role, group: &[Set], from: usize) -> bool
    requires { from ≤ length group.now }
    ensures { result ≡ spec.has_counted role group.now from (drop from group.now) }
{
    for (behind, set) in group[from..].iter().enumerate() {
        if is_counted(role, &group[..from + behind], set) {
            return true;
        }
    }
    false
}

/// What the texts of a group leave of the room for them.
fn text_room(role: Role, group: &[Set]) -> usize
    ensures { result ≡ spec.text_room role group.now TEXT_ROOM 0 group.now }
{
    let mut room = TEXT_ROOM;
    for (at, set) in group.iter().enumerate() {
        room = room.saturating_sub(text_len(role, &group[..at], set));
    }
    room
}

/// Whether the texts of a group have more than 30 characters together.
fn are_too_long(role: Role, group: &[Set]) -> bool
    ensures { result ≡ spec.are_too_long role group.now }
{
    text_room(role, group) == 0
}

/// Whether the variable at a place is the last of texts that are too long together.
fn is_last_text(role: Role, group: &[Set], at: usize, set: &Set) -> bool
    requires { at < length group.now }
    ensures { result ≡ spec.is_last_text role group.now at set.now }
{
    is_counted(role, &group[..at], set)
        && !has_counted(role, group, at + 1)
        && are_too_long(role, group)
}

fn is_outside(range: Option<Range>, value: &[u8]) -> bool
    ensures { result ≡ spec.is_outside range value.now }
{
    match range {
        Some(range) => !is_in(range, value),
        None => false,
    }
}

/// Whether a variable is the kind of one group more than may stand.
fn is_excess(role: Role, name: &[u8]) -> bool
    ensures { result ≡ spec.is_excess role name.now }
{
    match role {
        Role::Excess(_) => name == GROUP,
        _ => false,
    }
}

/// Whether the variable at a place of a group has a fault.
fn is_wrong(role: Role, group: &[Set], at: usize, set: &Set) -> bool
    requires { at < length group.now }
    ensures { result ≡ spec.is_wrong role group.now at set.now }
{
    let name = set.name.as_slice();
    let is_fault = is_outside(range_of(role, name), set.value.as_slice())
        || is_excess(role, name)
        || is_last_text(role, group, at, set);
    is_fault && !stands(&group[..at], name)
}

fn place_of(set: &Set) -> Place
    ensures { result ≡ spec.place_of set.now }
{
    Place {
        file: set.file,
        line: set.line,
    }
}

/// The first fault of a group.
fn group_fault(role: Role, group: &[Set]) -> Option<Place>
    ensures { result ≡ spec.group_fault role group.now }
{
    for (at, set) in group.iter().enumerate() {
        if is_wrong(role, group, at, set) {
            return Some(place_of(set));
        }
    }
    None
}

/// The first fault of groups.
#[tactic(auto, unfolding(crate::specs::Faults::first_fault))]
pub(crate) fn first_fault(groups: &[Items<Set>]) -> Option<Place>
    ensures { result ≡ spec.first_fault groups.now }
{
    let mut room = whole_room();
    for group in groups {
        let role = role_of(room, group.as_slice());
        if let Some(place) = group_fault(role, group.as_slice()) {
            return Some(place);
        }
        room = room_behind(room, role);
    }
    None
}
