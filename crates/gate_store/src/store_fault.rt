//! Why a store can't be opened.

ghost use Rattle.std.specs.Prelude.{◌≡◌};
ghost use Rattle.gate_store.specs.StoreFault.{same_fault};

use store_disk::Area;
use store_journal::OpenFault;

/// Why a store can't be opened.
#[derive(Clone, Copy)]
pub enum StoreFault {
    /// What the disk holds is no store: the first octet that doesn't fit stands in this area at this place.
    Foreign {
        /// The area that was read.
        area: Area,
        /// The place, in octets: of a wrong octet of the header, or of the gate of the unit that doesn't fit, or whose payload is no entry that
        /// may come next.
        at: u64,
    },
    /// A call of the disk failed: its count of faults rose, which it did with no other answer.
    Disk,
    /// There was no memory.
    Memory,
}

impl From<OpenFault> for StoreFault {
    ghost from_gives = { λ why fault. fault ≡ same_fault why };

    fn from(why: OpenFault) -> StoreFault {
        match why {
            OpenFault::Foreign { area, at } => StoreFault::Foreign { area, at },
            OpenFault::Disk => StoreFault::Disk,
            OpenFault::Memory => StoreFault::Memory,
        }
    }
}
