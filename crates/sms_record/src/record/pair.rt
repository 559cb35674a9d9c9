//! Two texts in memory of their own, taken together so that no function holds many that may still fail.

ghost use Rattle.std.specs.Prelude.{◌≡◌, IfOk};

use kn_base::{Memory, Octets};
use std::alloc::Global;

/// Copies of two texts.
pub(crate) fn copy_pair(
    alloc: Global,
    first: &[u8],
    second: &[u8],
) -> Result<(Octets, Octets), Memory>
    ensures { IfOk result (λ copies. copies ≡ (first.now, second.now)) }
{
    let first = Octets::from_slice(alloc, first)?;
    let second = Octets::from_slice(alloc, second)?;
    Ok((first, second))
}
