//! The links of a gate: which are up, and how many messages each has in flight.

ghost use Rattle.std.specs.Prelude.{◌≡◌, ◌<◌, ◌^◌, ◌-◌, false, length, replicate, slice_index, slice_set, IfOk};
ghost use Rattle.gate_model.specs.Links.{raised, lowered};

use kn_base::Memory;
use std::alloc::Global;

/// So many links, all of them down and with nothing in flight.
pub(crate) fn links_down(alloc: Global, count: usize) -> Result<(Vec<bool>, Vec<u64>), Memory>
    ensures up { IfOk result (λ links. links.0.items ≡ replicate count false) }
    ensures flight { IfOk result (λ links. links.1.items ≡ replicate count 0) }
{
    let up = vec![in alloc; false; count]?;
    let flight = vec![in alloc; 0u64; count]?;
    Ok((up, flight))
}

/// A link is up, or down.
pub(crate) fn set_up(up: &mut Vec<bool>, link: u32, is_up: bool)
    ensures { up.new.items ≡ slice_set up.old.items link is_up }
{
    let link = link as usize;
    if link < up.len() {
        up[link] = is_up;
    }
}

/// A link has one message more in flight.
pub(crate) fn raise(flight: &mut Vec<u64>, link: u32)
    requires few { slice_index flight.old.items link < 2 ^ 64 - 1 }
    ensures { flight.new.items ≡ raised link flight.old.items }
{
    let link = link as usize;
    if link < flight.len() {
        flight[link] += 1;
    }
}

/// A link, where there is one, has one message less in flight.
pub(crate) fn lower(flight: &mut Vec<u64>, lease: Option<u32>)
    ensures { flight.new.items ≡ lowered lease flight.old.items }
{
    if let Some(link) = lease {
        let link = link as usize;
        if link < flight.len() {
            flight[link] = flight[link].saturating_sub(1);
        }
    }
}
