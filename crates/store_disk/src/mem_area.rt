//! One area of a disk in memory.

ghost use Rattle.std.specs.Prelude.{◌≡◌, ◌≤◌, ◌<◌, ◌+◌, length, take, drop, IfOk, OnOk, OnErr};
ghost use Rattle.store_disk.specs.Disk.{written};

use kn_base::{Memory, Octets};
use std::alloc::Global;

/// What a range covers of these octets, as far as they go.
pub fn covered(alloc: Global, octets: &[u8], at: usize, count: usize) -> Result<Octets, Memory>
    requires { at ≤ length octets.now }
    ensures { IfOk result (λ was. was ≡ take count (drop at octets.now)) }
{
    let behind = &octets[at..];
    Octets::from_slice(alloc, &behind[..count.min(behind.len())])
}

/// What stands behind so many of these octets.
pub fn behind(alloc: Global, octets: &[u8], at: usize) -> Result<Octets, Memory>
    requires { at ≤ length octets.now }
    ensures { IfOk result (λ was. was ≡ drop at octets.now) }
{
    Octets::from_slice(alloc, &octets[at..])
}

/// Writes over octets from a place on, and past their end. After `Memory` nothing has changed.
pub fn write_over(octets: &mut Vec<u8>, at: usize, bytes: &[u8]) -> Result<(), Memory>
    requires { at ≤ length octets.old.items }
    ensures ok { OnOk result (octets.new.items ≡ written octets.old.items at bytes.now) }
    ensures err { OnErr result (octets.new.items ≡ octets.old.items) }
{
    let behind = octets.len() - at;
    let over = bytes.len().min(behind);
    octets.extend_from_slice(&bytes[over..])?;
    octets[at..at + over].copy_from_slice(&bytes[..over]);
    Ok(())
}
