//! The configuration that a case runs under.

ghost use Rattle.std.specs.Prelude.{IfOk};
ghost use Rattle.config_groups.specs.Ranges.{AreSettings};

use config_groups::{ConfigFault, Settings, read_config};
use kn_base::{MemShelf, Memory, Octets};
use line_cases::{both, octets_of};
use std::alloc::Global;

/// The configuration of a case that names none: one user, and the defaults.
pub const PLAIN: &[u8] =
    b"group = core\\n\\ngroup = sendsms-user\\nusername = tester\\npassword = foobar\\n";

/// The name of the file that it stands in.
const NAME: &[u8] = b"gate.conf";

/// A shelf with that file alone.
fn shelf_of(alloc: Global, text: &[u8]) -> Result<MemShelf, Memory> {
    let mut files = Vec::new(alloc);
    files.push(both(Octets::from_slice(alloc, NAME), octets_of(alloc, text))?)?;
    Ok(MemShelf::new(alloc, files, Vec::new(alloc)))
}

/// What the configuration of a text with escapes sets.
pub fn settings_of(alloc: Global, text: &[u8]) -> Result<Settings, ConfigFault>
    ensures { IfOk result AreSettings }
{
    let mut shelf = shelf_of(alloc, text)?;
    read_config(alloc, &mut shelf, NAME)
}

/// Puts last that a configuration is refused, unless there was no memory.
pub fn put_refused(report: &mut Octets, fault: &ConfigFault) -> Result<(), Memory> {
    match fault {
        ConfigFault::Memory => Err(Memory),
        _ => report.extend_from_slice(b"no configuration"),
    }
}
