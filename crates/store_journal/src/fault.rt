//! Why a store can't be opened.

ghost use Rattle.std.specs.Prelude.{◌≡◌};
ghost use Rattle.store_journal.specs.declared.fault.OpenFault.TheVariants.{Disk, Memory};

use kn_base::Memory as WantOfMemory;
use std::alloc::AllocError;
use store_disk::{Area, DiskFailed};

/// Why an opening, or the handing out of its payloads, stopped.
#[derive(Clone, Copy, Debug, PartialEq)]
pub enum OpenFault {
    /// The areas are no store of ours: the first octet that doesn't fit stands in this area at this place.
    Foreign {
        /// The area that was read.
        area: Area,
        /// The place, in octets: of a wrong octet of the header, or of the gate of the unit that doesn't fit.
        at: u64,
    },
    /// A call of the disk failed.
    Disk,
    /// There was no memory.
    Memory,
}

impl From<DiskFailed> for OpenFault {
    ghost from_gives = { λ _ fault. fault ≡ Disk };

    fn from(_failed: DiskFailed) -> OpenFault {
        OpenFault::Disk
    }
}

impl From<WantOfMemory> for OpenFault {
    ghost from_gives = { λ _ fault. fault ≡ Memory };

    fn from(_memory: WantOfMemory) -> OpenFault {
        OpenFault::Memory
    }
}

impl From<AllocError> for OpenFault {
    ghost from_gives = { λ _ fault. fault ≡ Memory };

    fn from(_error: AllocError) -> OpenFault {
        OpenFault::Memory
    }
}
