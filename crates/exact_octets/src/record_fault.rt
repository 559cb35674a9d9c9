//! Why octets could not be read, told by how many stand before the fault.

ghost use Rattle.std.specs.Prelude.{◌≡◌};

use kn_base::Memory;

/// Why there is no value in some octets.
#[derive(Clone, Copy, Debug)]
pub enum RecordFault {
    /// The octets are a proper front of a value's.
    Short,
    /// The first `at` octets begin a value's, and the first `at + 1` don't.
    Malformed {
        /// How many octets stand before the wrong one.
        at: usize,
    },
    /// There was no memory for the value.
    Memory,
}

impl From<Memory> for RecordFault {
    ghost use Rattle.std.specs.Prelude.{◌≡◌};
    ghost use Rattle.exact_octets.specs.declared.record_fault.RecordFault.TheVariants as faults;

    ghost from_gives = { λ _ fault. fault ≡ faults.Memory };

    fn from(_memory: Memory) -> RecordFault {
        RecordFault::Memory
    }
}
