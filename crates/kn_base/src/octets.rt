//! A growable list of octets that contracts see as a list of numbers.

ghost use Rattle.std.specs.Prelude.{◌≡◌, ◌≤◌, ◌↔◌, ℕ, List, [], ◌∷◌, ◌++◌, length, take, IsTrue, IfOk, OnOk, OnErr};

use crate::Memory;
use std::alloc::Global;
use std::marker::Model;

/// Octets in order, each a number below 256.
#[derive(Drop)]
pub struct Octets {
    items: Vec<u8>,
}

impl Model for Octets {
    ghost Value = { List ℕ };

    ghost view = { λ o. o.items.items };
}

impl Octets {
    /// No octets. It takes no memory.
    pub fn new(alloc: Global) -> Octets
        ensures { result ≡ [] }
    {
        Octets {
            items: Vec::new(alloc),
        }
    }

    /// The octets of a `Vec`. It takes no memory.
    pub fn from_vec(items: Vec<u8>) -> Octets
        ensures { result ≡ items.items }
    {
        Octets { items }
    }

    /// The `Vec` of these octets. It takes no memory.
    pub fn into_vec(self) -> Vec<u8>
        ensures { result.items ≡ self }
    {
        let Octets { items } = self;
        items
    }

    /// A copy of these octets.
    pub fn from_slice(alloc: Global, octets: &[u8]) -> Result<Octets, Memory>
        ensures { IfOk result (λ copy. copy ≡ octets.now) }
    {
        let items = Vec::from_slice(alloc, octets)?;
        Ok(Octets { items })
    }

    /// The octets, borrowed.
    pub fn as_slice(&self) -> &[u8]
        ensures { result.now ≡ self.now }
    {
        self.items.as_slice()
    }

    /// How many octets there are.
    pub fn len(&self) -> usize
        ensures { result ≡ length self.now }
    {
        self.items.len()
    }

    /// Whether there is no octet.
    pub fn is_empty(&self) -> bool
        ensures { IsTrue result ↔ (self.now ≡ []) }
    {
        self.items.is_empty()
    }

    /// Puts one octet last. After `Memory` nothing has changed.
    pub fn push(&mut self, octet: u8) -> Result<(), Memory>
        ensures ok { OnOk result (self.new ≡ self.old ++ octet ∷ []) }
        ensures err { OnErr result (self.new ≡ self.old) }
    {
        self.items.push(octet)?;
        Ok(())
    }

    /// Puts octets last. After `Memory` nothing has changed.
    pub fn extend_from_slice(&mut self, octets: &[u8]) -> Result<(), Memory>
        ensures ok { OnOk result (self.new ≡ self.old ++ octets.now) }
        ensures err { OnErr result (self.new ≡ self.old) }
    {
        self.items.extend_from_slice(octets)?;
        Ok(())
    }

    /// Keeps the first octets, and drops those behind them.
    pub fn truncate(&mut self, len: usize)
        ensures { self.new ≡ take len self.old }
    {
        self.items.truncate(len);
    }

    /// Where these octets take their memory.
    pub(crate) fn allocator(&self) -> Global {
        *self.items.allocator()
    }
}
