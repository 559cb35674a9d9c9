//! A shelf in memory, whose files stand beforehand.

ghost use Rattle.std.specs.Prelude.{◌≡◌, ◌≤◌, ◌⊎◌, ◌↔◌, [], ◌∷◌, Some, None, IfSome, IfOk, IsErrOf};
ghost use Rattle.std.specs.Option.{option_copied};
ghost use Rattle.kn_base.specs.Count.{next_count};
ghost use Rattle.kn_base.specs.Calls.{IsFailing, one_more};
ghost use Rattle.kn_base.specs.Shelf.{AsksFor, text_of};

use crate::{Items, MemCalls, Octets, Shelf, ShelfFault, raised};
use std::alloc::Global;
use std::mem::replace;

/// Names and texts. Of a name that stands twice the first text counts; one that isn't there is a counted fault.
///
/// Its calls are numbered from 0, and those whose numbers are in `failing` fail. It tells for which names it was asked, until there is no
/// memory to note one.
#[derive(Drop)]
pub struct MemShelf {
    files: Vec<(Octets, Octets)>,
    asked: Option<Items<Octets>>,
    calls: MemCalls,
    faults: u64,
}

impl MemShelf {
    ghost use Rattle.kn_base.specs.MemShelf.{files_of, asked_of, calls_of, faults_of};

    /// A shelf that was asked for nothing yet. It takes no memory.
    pub fn new(alloc: Global, files: Vec<(Octets, Octets)>, failing: Vec<u64>) -> MemShelf
        ensures files { files_of result ≡ Some files.items }
        ensures asked { asked_of result ≡ Some [] }
        ensures calls { calls_of result ≡ record { failing = failing.items; made = 0 } }
        ensures faults { faults_of result ≡ 0 }
    {
        MemShelf {
            files,
            asked: Some(Items::new(alloc)),
            calls: MemCalls::new(failing),
            faults: 0,
        }
    }
}

/// The names that were asked for with one behind them. Where there is no memory for it none are told from then on.
fn noted(alloc: Global, asked: Option<Items<Octets>>, name: &[u8]) -> Option<Items<Octets>>
    ensures { AsksFor (name.now ∷ []) asked result }
{
    match (asked, Octets::from_slice(alloc, name)) {
        (Some(names), Ok(name)) => with_last(names, name),
        _ => None,
    }
}

/// Names with one behind them, where there is memory for it.
fn with_last(names: Items<Octets>, name: Octets) -> Option<Items<Octets>>
    ensures { AsksFor (name ∷ []) (Some names) result }
{
    let mut names = names;
    match names.push(name) {
        Ok(()) => Some(names),
        Err(_) => None,
    }
}

/// The text under a name, the first where it stands twice.
fn text_under<'a>(files: &'a [(Octets, Octets)], name: &[u8]) -> Option<&'a Octets>
    ensures { option_copied result ≡ text_of name.now files.now }
{
    for (named, text) in files {
        if name == named.as_slice() {
            return Some(text);
        }
    }
    None
}

impl Shelf for MemShelf {
    ghost use Rattle.kn_base.specs.MemShelf.{files_of, asked_of, calls_of, faults_of};

    ghost files = { files_of };

    ghost asked = { asked_of };

    ghost calls = { λ s. (calls_of s).made };

    ghost faults = { faults_of };

    /// The whole text of the file of that name. `Failed` comes exactly where the call is one of those that are to fail or
    /// no file has the name, and is counted once.
    fn file(&mut self, alloc: Global, name: &[u8]) -> Result<Octets, ShelfFault>
        ensures text { IfOk result (λ text. IfSome (files_of self.old) (λ all. text_of name.now all ≡ Some text)) }
        ensures files { files_of self.new ≡ files_of self.old }
        ensures asked { AsksFor (name.now ∷ []) (asked_of self.old) (asked_of self.new) }
        ensures calls { calls_of self.new ≡ one_more (calls_of self.old) }
        ensures fails { IsErrOf result ShelfFault.Failed ↔ (IsFailing (calls_of self.old) ⊎ IfSome (files_of self.old) (λ all. text_of name.now all ≡ None)) }
        ensures failed { IsErrOf result ShelfFault.Failed → faults_of self.new ≡ next_count (faults_of self.old) }
        ensures kept { faults_of self.old ≤ faults_of self.new }
        ensures spared { IsErrOf result ShelfFault.Failed ⊎ (faults_of self.new ≡ faults_of self.old) }
    {
        let asked = replace(&mut self.asked, None);
        self.asked = noted(alloc, asked, name);
        let fails = self.calls.next_fails();
        match text_under(&self.files, name) {
            Some(text) if !fails => Ok(Octets::from_slice(alloc, text.as_slice())?),
            _ => {
                self.faults = raised(self.faults);
                Err(ShelfFault::Failed)
            }
        }
    }
}
