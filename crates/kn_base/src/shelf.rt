//! Where configuration files stand.

ghost use Rattle.std.specs.Prelude.{◌≡◌, ◌⊎◌, ℕ, ◌≤◌, List, [], ◌∷◌, Option, Some, IfOk, IfSome, IsErrOf};
ghost use Rattle.kn_base.specs.Count.{Rose, next_count};
ghost use Rattle.kn_base.specs.Shelf.{AsksFor, text_of};

use crate::{Memory, Octets};
use std::alloc::Global;

/// Why a file's text could not be had.
#[derive(Clone, Copy)]
pub enum ShelfFault {
    /// The file could not be read, or isn't there. The count of faults rose.
    Failed,
    /// There was no memory for its text.
    Memory,
}

impl From<Memory> for ShelfFault {
    ghost use Rattle.std.specs.Prelude.{◌≡◌};
    ghost use Rattle.kn_base.specs.declared.shelf.ShelfFault.TheVariants as faults;

    ghost from_gives = { λ _ fault. fault ≡ faults.Memory };

    fn from(_memory: Memory) -> ShelfFault {
        ShelfFault::Memory
    }
}

/// Files by their names.
pub trait Shelf {
    /// The names and texts, where they are told. Of a name that stands twice the first counts.
    ghost files: { Self → Option (List (List ℕ × List ℕ)) };

    /// The names that were asked for, in their order, where they are told.
    ghost asked: { Self → Option (List (List ℕ)) };

    /// How many calls were made.
    ghost calls: { Self → ℕ };

    /// How often a file could not be read.
    ghost faults: { Self → ℕ };

    /// The whole text of the file of that name.
    fn file(&mut self, alloc: Global, name: &[u8]) -> Result<Octets, ShelfFault>
        ensures text { IfOk result (λ text. IfSome (files self.old) (λ all. text_of name.now all ≡ Some text)) }
        ensures files { files self.new ≡ files self.old }
        ensures asked { AsksFor (name.now ∷ []) (asked self.old) (asked self.new) }
        ensures calls { calls self.new ≡ next_count (calls self.old) }
        ensures failed { IsErrOf result ShelfFault.Failed → Rose (faults self.old) (faults self.new) }
        ensures spared { IsErrOf result ShelfFault.Failed ⊎ (faults self.new ≡ faults self.old) }
        ensures kept { faults self.old ≤ faults self.new };
}
