//! Why nothing could be read, told by how many octets are left.

ghost use Rattle.std.specs.Prelude.{◌≡◌};

use kn_base::Memory;

/// The first fault from the left.
#[derive(Clone, Copy)]
pub enum ReadFault {
    /// The octets end within a value.
    Short,
    /// No value goes on with the octet that the last `left` octets begin with.
    Malformed {
        /// How many octets are left, the wrong one among them.
        left: usize,
    },
    /// There was no memory for the value.
    Memory,
}

impl From<Memory> for ReadFault {
    ghost use Rattle.std.specs.Prelude.{◌≡◌};
    ghost use Rattle.exact_octets.specs.declared.read_fault.ReadFault.TheVariants as faults;

    ghost from_gives = { λ _ fault. fault ≡ faults.Memory };

    fn from(_memory: Memory) -> ReadFault {
        ReadFault::Memory
    }
}
