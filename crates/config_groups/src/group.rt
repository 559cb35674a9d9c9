//! The groups of a configuration: what stands between blank lines.

ghost use Rattle.std.specs.Prelude.{◌≡◌, ◌++◌, IfOk, OnOk};
ghost use Rattle.config_groups.specs.Groups as spec;

use config_lines::{Line, PlacedLine};
use kn_base::{Items, Memory, Octets};
use std::alloc::Global;

/// A variable that is set, and where.
#[derive(Drop)]
pub(crate) struct Set {
    /// The number of its file in the order of reading, from 0.
    pub(crate) file: u32,
    /// Its line in the file, from 1.
    pub(crate) line: u64,
    pub(crate) name: Octets,
    pub(crate) value: Octets,
}

/// Puts a group last that ends here, unless it sets nothing.
fn close_group(groups: &mut Items<Items<Set>>, sets: Items<Set>) -> Result<(), Memory>
    ensures { OnOk result (groups.new ≡ groups.old ++ spec.some_group sets) }
{
    if sets.is_empty() {
        return Ok(());
    }
    groups.push(sets)
}

/// The groups of lines, each with what it sets, in the order of the lines.
#[tactic(auto, unfolding(crate::specs::Groups::groups_of))]
pub(crate) fn groups_of(
    alloc: Global,
    lines: Items<PlacedLine>,
) -> Result<Items<Items<Set>>, Memory>
    ensures { IfOk result (λ groups. groups ≡ spec.groups_of lines) }
{
    let mut groups = Items::new(alloc);
    let mut sets = Items::new(alloc);
    for placed in lines.into_vec() {
        let PlacedLine { file, line, says } = placed;
        match says {
            Line::Blank => {
                close_group(&mut groups, sets)?;
                sets = Items::new(alloc);
            }
            Line::Comment => {}
            Line::Variable { name, value } => sets.push(Set {
                file,
                line,
                name,
                value,
            })?,
        }
    }
    close_group(&mut groups, sets)?;
    Ok(groups)
}
