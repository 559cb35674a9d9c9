//! What was read, as it is told to those who have all of the octets.

ghost use Rattle.std.specs.Prelude.{◌≡◌, length};
ghost use Rattle.exact_octets.specs.Telling.{IsPlaced, IsWithin, told_of, first_told, all_told};

use crate::{ReadFault, RecordFault};

fn fault_of(len: usize, fault: ReadFault) -> RecordFault
    requires { IsPlaced len fault }
    ensures { result ≡ told_of len fault }
{
    match fault {
        ReadFault::Short => RecordFault::Short,
        ReadFault::Malformed { left } => RecordFault::Malformed { at: len - left },
        ReadFault::Memory => RecordFault::Memory,
    }
}

/// The value that was read at the front of the octets and how many octets it takes, or the fault by how many stand before it.
pub fn told_first<T>(
    octets: &[u8],
    read: Result<(T, &[u8]), ReadFault>,
) -> Result<(T, usize), RecordFault>
    requires { IsWithin (length octets.now) read }
    ensures { result ≡ first_told (length octets.now) read.entry }
{
    match read {
        Ok((value, rest)) => Ok((value, octets.len() - rest.len())),
        Err(fault) => Err(fault_of(octets.len(), fault)),
    }
}

/// The value that was read, where it takes all of the octets, or the fault by how many octets stand before it.
pub fn told_all<T: Drop>(
    octets: &[u8],
    read: Result<(T, &[u8]), ReadFault>,
) -> Result<T, RecordFault>
    requires { IsWithin (length octets.now) read }
    ensures { result ≡ all_told (length octets.now) read.entry }
{
    match read {
        Ok((value, [])) => Ok(value),
        Ok((_, rest)) => Err(RecordFault::Malformed {
            at: octets.len() - rest.len(),
        }),
        Err(fault) => Err(fault_of(octets.len(), fault)),
    }
}
