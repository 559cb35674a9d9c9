//! A configuration is read.

ghost use Rattle.std.specs.Prelude.{◌≡◌, ◌⊎◌, ◌≤◌, IfOk, IfErr, IfSome, IsErrOf, option_map};
ghost use Rattle.kn_base.specs.Count.{Rose};
ghost use Rattle.config_groups.specs.Config as spec;
ghost use Rattle.config_groups.specs.Ranges.{AreSettings};

use crate::fault::first_fault;
use crate::group::{Set, groups_of};
use crate::missing::first_missing;
use crate::settings::{Settings, settings_of};
use config_lines::{LinesFault, Read, read_lines};
use kn_base::{Items, Memory, Octets, Shelf};
use std::alloc::Global;

/// Why a configuration is refused: the first fault in the order of reading. Files are told by their numbers in that order, from 0, and
/// lines by theirs in the file, from 1.
#[derive(Drop)]
pub enum ConfigFault {
    /// The line is outside the grammar.
    Line { file: u32, line: u64 },
    /// The line gives a variable a value outside its range; or with it there are more than 1,000 groups of its kind.
    Value { file: u32, line: u64 },
    /// A file is included at a deeper level than the eighth, or 1,000 files were read before it.
    TooDeep,
    /// A file could not be had: the shelf's count of faults rose.
    NoFile,
    /// The group of this number, from 0, lacks the variable. Or there are so many groups, none of them of core, and the variable
    /// is `core`.
    Missing { group: u64, variable: Octets },
    /// There was no memory.
    Memory,
}

impl From<Memory> for ConfigFault {
    ghost use Rattle.std.specs.Prelude.{◌≡◌};
    ghost use Rattle.config_groups.specs.declared.read.ConfigFault.TheVariants as faults;

    ghost from_gives = { λ _ fault. fault ≡ faults.Memory };

    fn from(_memory: Memory) -> ConfigFault {
        ConfigFault::Memory
    }
}

/// The fault with which the reading of lines ended.
fn ending(fault: LinesFault) -> ConfigFault
    ensures { result ≡ spec.ending fault }
{
    match fault {
        LinesFault::NoLine { file, line } => ConfigFault::Line { file, line },
        LinesFault::TooDeep => ConfigFault::TooDeep,
        LinesFault::NoFile => ConfigFault::NoFile,
    }
}

/// What is missing, where nothing else is wrong.
fn missing_fault(alloc: Global, groups: &[Items<Set>]) -> Result<Option<ConfigFault>, Memory>
    ensures { IfOk result (λ fault. fault ≡ spec.missing_fault groups.now) }
{
    match first_missing(alloc, groups)? {
        Some((group, variable)) => Ok(Some(ConfigFault::Missing { group, variable })),
        None => Ok(None),
    }
}

/// The first fault of groups and of the lines that they come of.
#[tactic(auto, unfolding(crate::specs::Config::fault_of))]
fn fault_of(
    alloc: Global,
    ended: Option<LinesFault>,
    groups: &[Items<Set>],
) -> Result<Option<ConfigFault>, Memory>
    ensures { IfOk result (λ fault. fault ≡ spec.fault_of ended groups.now) }
{
    if let Some(place) = first_fault(groups) {
        return Ok(Some(ConfigFault::Value {
            file: place.file,
            line: place.line,
        }));
    }
    match ended {
        Some(fault) => Ok(Some(ending(fault))),
        None => missing_fault(alloc, groups),
    }
}

/// What groups set, unless there is a fault.
#[tactic(auto, unfolding(crate::specs::Config::config_in))]
fn config_in(
    alloc: Global,
    ended: Option<LinesFault>,
    groups: &[Items<Set>],
) -> Result<Settings, ConfigFault>
    ensures ok { IfOk result (λ settings. spec.config_in ended groups.now ≡ Ok settings) }
    ensures fault { IfErr result (λ fault. (fault ≡ ConfigFault.Memory) ⊎ (spec.config_in ended groups.now ≡ Err fault)) }
{
    match fault_of(alloc, ended, groups)? {
        Some(fault) => Err(fault),
        None => Ok(settings_of(alloc, groups)?),
    }
}

/// What lines set, unless there is a fault.
#[tactic(auto, unfolding(crate::specs::Config::config_of))]
fn config_of(alloc: Global, read: Read) -> Result<Settings, ConfigFault>
    ensures ok { IfOk result (λ settings. spec.config_of read ≡ Ok settings) }
    ensures fault { IfErr result (λ fault. (fault ≡ ConfigFault.Memory) ⊎ (spec.config_of read ≡ Err fault)) }
{
    let Read { lines, fault, .. } = read;
    let groups = groups_of(alloc, lines)?;
    config_in(alloc, fault, groups.as_slice())
}

/// Reads the configuration whose first file has that name (docs/FORMATS.md, 'Configuration').
///
/// Settings lie within the ranges of the table there (`specs/Ranges.antt`). Each fault is the first in the order of reading. `NoFile` only
/// where the shelf's count of faults rose; with settings it stands still. The shelf is asked for each file once for each place that includes
/// it, in the order of reading, and for no other. `Memory`.
pub fn read_config<S: Shelf>(
    alloc: Global,
    shelf: &mut S,
    name: &[u8],
) -> Result<Settings, ConfigFault>
    ensures read { IfSome (S.files shelf.old) (λ all. spec.IsConfig all name.now (S.faults shelf.old) (S.faults shelf.new) result) }
    ensures asked { spec.AsksInTurn S.files S.asked S.faults shelf.old shelf.new name.now result }
    ensures spared { IfOk result (λ _. S.faults shelf.new ≡ S.faults shelf.old) }
    ensures ranges { IfOk result AreSettings }
    ensures kept { S.files shelf.new ≡ S.files shelf.old }
    ensures missed { IsErrOf result ConfigFault.NoFile → Rose (S.faults shelf.old) (S.faults shelf.new) }
    ensures not_fewer { S.faults shelf.old ≤ S.faults shelf.new }
{
    let read = read_lines(alloc, shelf, name)?;
    config_of(alloc, read)
}
