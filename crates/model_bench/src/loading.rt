//! Entries that are read.

ghost use Rattle.gate_model.specs.Loading.{gate_in};

use crate::passage::BIRTH;
use crate::rules::rules;
use gate_model::{Loader, Totals};
use std::alloc::Global;

/// Hands a loader a payload so many times, and says whether it took each.
fn put_all(loader: &mut Loader, payload: &[u8], count: u64) -> bool
{
    for _ in 0..count {
        if loader.put(payload).is_err() {
            return false;
        }
    }
    true
}

/// What a store of so many like entries counts. `None` where one wasn't taken, or there was no memory.
pub(crate) fn load(alloc: Global, payload: &[u8], count: u64) -> Option<Totals> {
    match Loader::new(alloc, rules(alloc).ok()?, BIRTH) {
        Ok(loader) => {
            let mut loader = loader;
            if !put_all(&mut loader, payload, count) {
                return None;
            }
            Some(loader.whole()?.totals())
        }
        Err(_) => None,
    }
}
