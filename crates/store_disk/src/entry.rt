//! What a disk in memory notes of its calls.

ghost use Rattle.std.specs.Prelude.{◌≡◌, ◌+◌, ◌++◌, take, drop, IfOk};

use crate::Area;
use kn_base::{Memory, Octets};
use std::alloc::Global;

/// What a call did to an area, and what takes it back.
#[derive(Drop)]
pub enum Deed {
    /// A write, good or failed.
    Wrote {
        /// The place at which it began, in octets.
        at: usize,
        /// How many octets it wrote.
        count: usize,
        /// What stood there before it: less than `count` octets where it made the area longer.
        was: Octets,
    },
    /// A cut, good or failed.
    Cut {
        /// The size that was asked for, in octets.
        size: usize,
        /// What it took away.
        was: Octets,
    },
    /// A good sync.
    Synced,
}

/// A call that did something to an area.
#[derive(Drop)]
pub struct Entry {
    /// The number of the call, from 0.
    pub call: u64,
    /// The area.
    pub area: Area,
    /// What it did.
    pub deed: Deed,
}

/// Octets with others in place of so many from a place on.
fn put_back(
    alloc: Global,
    octets: &[u8],
    at: usize,
    count: usize,
    was: &[u8],
) -> Result<Octets, Memory>
    ensures { IfOk result (λ before. before ≡ take at octets.now ++ was.now ++ drop (at + count) octets.now) }
{
    let mut before = Octets::from_slice(alloc, &octets[..at.min(octets.len())])?;
    before.extend_from_slice(was)?;
    before.extend_from_slice(&octets[at.saturating_add(count).min(octets.len())..])?;
    Ok(before)
}

impl Entry {
    ghost use Rattle.store_disk.specs.Stop.{is_later, is_sync, octets_back};

    /// An area before the call.
    pub fn before(&self, alloc: Global, area: Area, octets: Octets) -> Result<Octets, Memory>
        ensures { IfOk result (λ before. before ≡ octets_back area self.now octets) }
    {
        if self.area != area {
            return Ok(octets);
        }
        self.deed.before(alloc, octets)
    }

    /// Whether a stop in the call of a number comes before this one: it is a later call, or that one and a sync, which has put nothing
    /// in place yet.
    pub fn is_later(&self, call: u64) -> bool
        ensures { result ≡ is_later call self.now }
    {
        call < self.call || (self.deed.is_synced() && self.call == call)
    }

    /// Whether the call was a good sync of an area.
    pub fn is_sync(&self, area: Area) -> bool
        ensures { result ≡ is_sync area self.now }
    {
        self.area == area && self.deed.is_synced()
    }
}

impl Deed {
    ghost use Rattle.store_disk.specs.MemDisk.{octets_before};
    ghost use Rattle.store_disk.specs.Stop.{covers, is_synced};

    /// The octets of its area before it.
    pub fn before(&self, alloc: Global, octets: Octets) -> Result<Octets, Memory>
        ensures { IfOk result (λ before. before ≡ octets_before self.now octets) }
    {
        match self {
            Deed::Wrote { at, count, was } => {
                put_back(alloc, octets.as_slice(), *at, *count, was.as_slice())
            }
            Deed::Cut { size: _, was } => {
                let mut before = octets;
                before.extend_from_slice(was.as_slice())?;
                Ok(before)
            }
            Deed::Synced => Ok(octets),
        }
    }

    /// Whether it is a good sync.
    pub fn is_synced(&self) -> bool
        ensures { result ≡ is_synced self.now }
    {
        matches!(self, Deed::Synced)
    }

    /// Whether it is a write over a place.
    pub fn covers(&self, place: usize) -> bool
        ensures { result ≡ covers self.now place }
    {
        match self {
            Deed::Wrote { at, count, was: _ } => place >= *at && place - *at < *count,
            _ => false,
        }
    }
}
