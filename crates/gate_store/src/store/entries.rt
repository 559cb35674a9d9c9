//! The entries of a store that is opened: each is read, and done.

ghost use Rattle.std.specs.Prelude.{◌≡◌, ◌<◌, ◌^◌, length, None, IfOk, IfErr};
ghost use Rattle.store_journal.specs.Journal.{IsJournal, area_of, birth_of, disk_of, gate_of, left, next_gate};
ghost use Rattle.gate_store.specs.StoreSteps.{Loads, LoadsNone};

use crate::{Store, StoreFault};
use gate_model::{LoadFault, Loader};
use route_rules::Rules;
use std::alloc::Global;
use store_disk::Disk;
use store_journal::Journal;

/// The disk of a journal whose last payload is none that may come next, and where that stands.
fn foreign<D: Disk>(journal: Journal<D>) -> (D, StoreFault)
    ensures disk { result.0 ≡ disk_of journal }
    ensures fault { result.1 ≡ StoreFault.Foreign (area_of journal) (gate_of journal) }
{
    let (area, at) = journal.place();
    (journal.close(), StoreFault::Foreign { area, at })
}

/// A store over a journal whose payloads are all still to be handed out.
pub(crate) fn load<D: Disk>(
    alloc: Global,
    rules: Rules,
    journal: Journal<D>,
) -> Result<Store<D>, (D, StoreFault)>
    requires journal { IsJournal D.meaning journal (birth_of journal) (left journal) None }
    requires gate { next_gate journal ≡ 16 }
    requires few_links { length rules.links < 2 ^ 32 }
    ensures ok { IfOk result (Loads D.meaning rules journal) }
    ensures err { IfErr result (λ fault. LoadsNone D.meaning rules journal fault.0 fault.1) }
{
    let mut journal = journal;
    let Ok(loader) = Loader::new(alloc, rules, journal.birth()) else {
        return Err((journal.close(), StoreFault::Memory));
    };
    let mut loader = loader;
    loop {
        match journal.next() {
            Ok(Some(payload)) => match loader.put(payload.as_slice()) {
                Ok(()) => {}
                Err(LoadFault::Outside) => return Err(foreign(journal)),
                Err(LoadFault::Memory) => return Err((journal.close(), StoreFault::Memory)),
            },
            Ok(None) => break,
            Err(_) => return Err((journal.close(), StoreFault::Memory)),
        }
    }
    match loader.whole() {
        Some(gate) => Ok(Store {
            alloc,
            journal,
            gate,
            unsure: None,
        }),
        None => unreachable!(),
    }
}
