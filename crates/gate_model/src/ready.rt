//! An entry for which memory was taken.

ghost use Rattle.std.specs.Prelude.{◌≡◌};
ghost use Rattle.gate_model.specs.Gate.{birth_of, entry_of};

use gate_entries::Recorded;
use kn_base::Octets;

/// An entry for which a gate has taken all memory that it needs.
#[derive(Drop)]
pub struct Ready {
    pub(crate) entry: Recorded,
    /// The birth of the store, from which internal ids are made.
    pub(crate) birth: u64,
    /// The URL that the entry calls, with its escapes filled.
    pub(crate) url: Option<Octets>,
}

impl Ready {
    /// The entry.
    pub fn entry(&self) -> &Recorded
        ensures { result.now ≡ entry_of self.now }
    {
        &self.entry
    }

    /// The birth of the store that the entry was prepared for.
    pub fn birth(&self) -> u64
        ensures { result ≡ birth_of self.now }
    {
        self.birth
    }

    /// Gives the entry back. It takes no memory, and the gate keeps the room that was made for it.
    pub fn into_entry(self) -> Recorded
        ensures { result ≡ entry_of self }
    {
        let Ready {
            entry,
            birth: _,
            url: _,
        } = self;
        entry
    }
}
