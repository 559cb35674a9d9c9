//! The lists under their keys.

ghost use Rattle.std.specs.Prelude.{◌≡◌, ℕ, ◌+◌, ◌-◌, ◌<◌, ◌≤◌, List, [], ◌∷◌, ◌++◌, length, drop, position, option_copied, IsOk, IfOk, IfErr, OnOk, OnErr, IfSome, IfNone, vec_len, vec_capacity};
ghost use Rattle.dlr_table.specs.Reports as spec;
ghost use Rattle.dlr_table.specs.Reports.{under, spare, count_of, oldest, SameLists, SameElsewhere};

use crate::Awaited;
use crate::key::{Key, mark_of};
use kn_base::Memory;
use std::alloc::Global;

/// A message under its key.
#[derive(Drop)]
struct Entry {
    key: Key,
    awaited: Awaited,
}

/// A list of awaited messages under each key of an SMSC id and a foreign id, the oldest first.
#[derive(Drop)]
pub struct Reports {
    /// All entries, in the order in which they were added.
    entries: Vec<Entry>,
    /// The key of a later entry, made beforehand.
    made: Option<Key>,
}

impl Reports {
    /// No list has a message. It takes no memory.
    pub fn new(alloc: Global) -> Reports
        ensures lists { (smsc foreign : List ℕ) → under result smsc foreign ≡ [] }
        ensures count { count_of result ≡ 0 }
    {
        Reports {
            entries: Vec::new(alloc),
            made: None,
        }
    }

    /// How many messages there are under all keys together.
    pub fn count(&self) -> usize
        ensures { result ≡ count_of self.now }
    {
        self.entries.len()
    }

    /// The oldest message under a key. It takes no memory.
    #[tactic(auto, using(crate::proofs::Lists::oldest_at, crate::proofs::Lists::oldest_none))]
    pub fn find(&self, smsc: &[u8], foreign: &[u8]) -> Option<&Awaited>
        ensures { option_copied result ≡ oldest (under self.now smsc.now foreign.now) }
    {
        match place_of(self.entries.as_slice(), smsc, foreign) {
            Some(place) => Some(&self.entries[place].awaited),
            None => None,
        }
    }

    /// Takes the oldest message under a key away. It takes no memory.
    #[tactic(auto, using(crate::proofs::Lists::oldest_at, crate::proofs::Lists::oldest_none, crate::proofs::Lists::rest_at, crate::proofs::Lists::rest_none, crate::proofs::Lists::others_at))]
    pub fn close(&mut self, smsc: &[u8], foreign: &[u8]) -> Option<Awaited>
        ensures first { result ≡ oldest (under self.old smsc.now foreign.now) }
        ensures rest { under self.new smsc.now foreign.now ≡ drop 1 (under self.old smsc.now foreign.now) }
        ensures others { SameElsewhere smsc.now foreign.now self.old self.new }
        ensures some { IfSome result (λ _. count_of self.new + 1 ≡ count_of self.old) }
        ensures none { IfNone result (count_of self.new ≡ count_of self.old) }
    {
        match place_of(self.entries.as_slice(), smsc, foreign) {
            Some(place) => Some(self.entries.remove(place).awaited),
            None => None,
        }
    }

    /// Makes room for one message under a key, so that the next `add` there takes no memory. Where there is no memory, and
    /// where there is, the lists stay.
    pub fn reserve(&mut self, smsc: &[u8], foreign: &[u8]) -> Result<(), Memory>
        ensures ok { OnOk result (0 < spare self.new smsc.now foreign.now) }
        ensures lists { SameLists self.old self.new }
        ensures count { count_of self.new ≡ count_of self.old }
    {
        self.entries.reserve(1)?;
        if !self.is_made(smsc, foreign) {
            let alloc = *self.entries.allocator();
            self.made = Some(Key::copied(alloc, smsc, foreign)?);
        }
        Ok(())
    }

    /// Puts a message last under a key. Where there is no memory the lists stay, and the message is given back.
    #[tactic(auto, using(crate::proofs::Lists::last_own, crate::proofs::Lists::others_behind))]
    pub fn add(
        &mut self,
        smsc: &[u8],
        foreign: &[u8],
        awaited: Awaited,
    ) -> Result<(), (Awaited, Memory)>
        ensures ok { OnOk result (under self.new smsc.now foreign.now ≡ under self.old smsc.now foreign.now ++ awaited ∷ []) }
        ensures others { SameElsewhere smsc.now foreign.now self.old self.new }
        ensures count { OnOk result (count_of self.new ≡ count_of self.old + 1) }
        ensures err { IfErr result (λ back. back.0 ≡ awaited) }
        ensures lists { OnErr result (SameLists self.old self.new) }
        ensures same_count { OnErr result (count_of self.new ≡ count_of self.old) }
        ensures succeeds { 0 < spare self.old smsc.now foreign.now → IsOk result }
    {
        match self.take_key(smsc, foreign) {
            Ok(key) => {
                self.entries.push_reserved(Entry { key, awaited });
                Ok(())
            }
            Err(Memory) => Err((awaited, Memory)),
        }
    }

    // Whether this key was made beforehand.
    fn is_made(&self, smsc: &[u8], foreign: &[u8]) -> bool
        ensures { result ≡ spec.is_made smsc.now foreign.now self.now.made }
    {
        match &self.made {
            Some(key) => key.is(smsc, foreign, mark_of(foreign)),
            None => false,
        }
    }

    // The key for one more entry, and a place for it. It takes no memory where that key was made beforehand.
    fn take_key(&mut self, smsc: &[u8], foreign: &[u8]) -> Result<Key, Memory>
        ensures key { IfOk result (λ key. key ≡ record { smsc = smsc.now; foreign = foreign.now }) }
        ensures place { OnOk result (vec_len self.new.entries < vec_capacity self.new.entries) }
        ensures entries { self.new.entries.items ≡ self.old.entries.items }
        ensures succeeds { 0 < spare self.old smsc.now foreign.now → IsOk result }
    {
        self.entries.reserve(1)?;
        if self.is_made(smsc, foreign) {
            if let Some(key) = self.made.take() {
                return Ok(key);
            }
        }
        Key::copied(*self.entries.allocator(), smsc, foreign)
    }
}

// The place of the first entry of a key.
fn place_of(entries: &[Entry], smsc: &[u8], foreign: &[u8]) -> Option<usize>
    ensures { result ≡ position (spec.is_under smsc.now foreign.now) entries.now }
{
    let mark = mark_of(foreign);
    entries
        .iter()
        .position(|entry| entry.key.is(smsc, foreign, mark))
}
