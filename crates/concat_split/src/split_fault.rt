//! Why a text could not be split.

ghost use Rattle.std.specs.Prelude.{◌≡◌};

use kn_base::Memory;

/// Why a text has no parts.
#[derive(Clone, Copy, Debug, PartialEq)]
pub enum SplitFault {
    /// A part has room for so many units, and what stands round its text leaves less than 2 of them.
    NoRoom { room: usize, around: usize },
    /// There was no memory for the parts.
    Memory,
}

impl From<Memory> for SplitFault {
    ghost use Rattle.std.specs.Prelude.{◌≡◌};
    ghost use Rattle.concat_split.specs.declared.split_fault.SplitFault.TheVariants as faults;

    ghost from_gives = { λ _ fault. fault ≡ faults.Memory };

    fn from(_memory: Memory) -> SplitFault {
        SplitFault::Memory
    }
}
