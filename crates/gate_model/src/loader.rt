//! A gate that is read from what a store kept.

ghost use Rattle.std.specs.Prelude.{◌≡◌, ◌<◌, ◌^◌, length, IfOk, IfErr, OnOk, Some, Err};
ghost use Rattle.gate_entries.specs.Entry.{IsEntry, entry_octets};
ghost use Rattle.gate_model.specs.Gate.{rules_of};
ghost use Rattle.gate_model.specs.Loading.{gate_in, birth_in, loaded, IsTaken, IsOutside, IsNoEntry};
ghost use Rattle.gate_model.specs.State.{empty};

use crate::{Gate, LoadFault};
use gate_entries::{RecordFault, Recorded, read_entry};
use kn_base::Memory;
use route_rules::Rules;
use std::alloc::Global;

/// A gate that is read from the payloads of a store, in their order.
#[derive(Drop)]
pub struct Loader {
    alloc: Global,
    birth: u64,
    gate: Gate,
}

/// The entry that a payload is, where it is one.
fn entry_in(alloc: Global, payload: &[u8]) -> Result<Recorded, LoadFault>
    ensures found { IfOk result (λ kept. IsEntry kept × (payload.now ≡ entry_octets kept)) }
    ensures none { result ≡ Err LoadFault.Outside → IsNoEntry payload.now }
{
    match read_entry(alloc, payload) {
        Ok(entry) => Ok(entry),
        Err(RecordFault::Memory) => Err(LoadFault::Memory),
        Err(RecordFault::Short) => Err(LoadFault::Outside),
        Err(RecordFault::Malformed { .. }) => Err(LoadFault::Outside),
    }
}

impl Loader {
    /// Nothing was read yet: the gate of a store of this birth in which nothing has happened. After `Memory` the rules are given back.
    pub fn new(alloc: Global, rules: Rules, birth: u64) -> Result<Loader, (Rules, Memory)>
        requires { length rules.links < 2 ^ 32 }
        ensures rules { IfOk result (λ loader. rules_of (gate_in loader) ≡ rules) }
        ensures state { IfOk result (λ loader. loaded loader ≡ empty (length rules.links)) }
        ensures birth { IfOk result (λ loader. birth_in loader ≡ birth) }
        ensures err { IfErr result (λ back. back.0 ≡ rules) }
    {
        match Gate::new(alloc, rules) {
            Ok(gate) => Ok(Loader { alloc, birth, gate }),
            Err(back) => Err(back),
        }
    }

    /// Takes the next payload of a store.
    ///
    /// `Outside` exactly where it is no entry, or one that isn't sound after those before it, or where as many entries stand before it as
    /// ever may be recorded. `Memory`. After either the loader can only be dropped.
    pub fn put(&mut self, payload: &[u8]) -> Result<(), LoadFault>
        ensures taken { OnOk result (IsTaken (birth_in self.old) payload.now (loaded self.old) (loaded self.new)) }
        ensures outside { result ≡ Err LoadFault.Outside → IsOutside payload.now (loaded self.old) }
        ensures rules { rules_of (gate_in self.new) ≡ rules_of (gate_in self.old) }
        ensures birth { birth_in self.new ≡ birth_in self.old }
    {
        let entry = entry_in(self.alloc, payload)?;
        if !self.gate.suits(&entry) {
            return Err(LoadFault::Outside);
        }
        match self.gate.prepare(entry, self.birth) {
            Ok(ready) => {
                let _ = self.gate.apply(ready);
                Ok(())
            }
            Err((_, Memory)) => Err(LoadFault::Memory),
        }
    }

    /// The gate that was read. It takes no memory.
    pub fn whole(self) -> Option<Gate>
        ensures { result ≡ Some (gate_in self) }
    {
        let Loader {
            alloc: _,
            birth: _,
            gate,
        } = self;
        Some(gate)
    }
}
