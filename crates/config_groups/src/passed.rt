//! How much of a configuration is passed over.

ghost use Rattle.std.specs.Prelude.{◌≡◌};
ghost use Rattle.config_groups.specs.Passed as spec;

use crate::fault::range_of;
use crate::group::Set;
use crate::role::{Role, role_of, room_behind, whole_room};
use kn_base::{Items, raised};

/// How many variables of a group are unknown, counted on from a count.
fn unknown_behind(role: Role, count: u64, group: &[Set]) -> u64
    ensures { result ≡ spec.unknown_behind role count group.now }
{
    let mut count = count;
    for set in group {
        if range_of(role, set.name.as_slice()).is_none() {
            count = raised(count);
        }
    }
    count
}

/// The count behind a group.
fn passed_behind(role: Role, count: u64, group: &[Set]) -> u64
    ensures { result ≡ spec.passed_behind role count group.now }
{
    match role {
        Role::Passed => raised(count),
        _ => unknown_behind(role, count, group),
    }
}

/// How many groups and variables are passed over. The count stands still at 2^64 - 1.
#[tactic(auto, unfolding(crate::specs::Passed::passed_of))]
pub(crate) fn passed_of(groups: &[Items<Set>]) -> u64
    ensures { result ≡ spec.passed_of groups.now }
{
    let mut room = whole_room();
    let mut count = 0;
    for group in groups {
        let role = role_of(room, group.as_slice());
        count = passed_behind(role, count, group.as_slice());
        room = room_behind(room, role);
    }
    count
}
