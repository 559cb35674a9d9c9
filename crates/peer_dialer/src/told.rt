//! What a dialer in memory keeps, so that it can be told.

ghost use Rattle.std.specs.Prelude.{◌≡◌, [], ◌∷◌, ◌++◌, Some, OnOk, OnErr};
ghost use Rattle.peer_dialer.specs.Dealings.{asked_for, Adds, Stays};
ghost use Rattle.peer_dialer.specs.Told.{dials_in, pasts_in};

use crate::copying::copy_closed;
use crate::{Asked, Closed};
use kn_base::{Memory, Octets};
use std::alloc::Global;

/// What was asked for, and what became of the peers that came back, as long as there was memory to keep that.
#[derive(Drop)]
pub struct Told {
    pub(crate) dials: Vec<Asked>,
    pub(crate) pasts: Option<Vec<Closed>>,
}

/// Puts what was asked for last.
fn push_asked(alloc: Global, dials: &mut Vec<Asked>, host: &[u8], port: u16) -> Result<(), Memory>
    ensures { OnOk result (dials.new.items ≡ dials.old.items ++ asked_for host.now port ∷ []) }
{
    let host = Octets::from_slice(alloc, host)?;
    dials.push(Asked { host, port })?;
    Ok(())
}

/// Keeps what was asked for, as long as anything is kept.
fn push_dial(alloc: Global, told: &mut Option<Told>, host: &[u8], port: u16) -> Result<(), Memory>
    ensures dials { OnOk result (Adds (asked_for host.now port) (dials_in told.old) (dials_in told.new)) }
    ensures pasts { OnOk result (pasts_in told.new ≡ pasts_in told.old) }
{
    match told {
        Some(kept) => push_asked(alloc, &mut kept.dials, host, port),
        None => Ok(()),
    }
}

/// Keeps what was asked for. After `Memory` nothing is told any more.
pub(crate) fn keep_dial(
    alloc: Global,
    told: &mut Option<Told>,
    host: &[u8],
    port: u16,
) -> Result<(), Memory>
    ensures dials { Adds (asked_for host.now port) (dials_in told.old) (dials_in told.new) }
    ensures pasts { Stays (pasts_in told.old) (pasts_in told.new) }
{
    let pushed = push_dial(alloc, told, host, port);
    if pushed.is_err() {
        *told = None;
    }
    pushed
}

/// Makes room for the pasts of so many peers more.
pub(crate) fn make_room(told: &mut Option<Told>, peers: usize) -> Result<(), Memory>
    ensures dials { dials_in told.new ≡ dials_in told.old }
    ensures pasts { pasts_in told.new ≡ pasts_in told.old }
{
    if let Some(kept) = told {
        if let Some(pasts) = &mut kept.pasts {
            pasts.reserve(peers)?;
        }
    }
    Ok(())
}

/// How many pasts are kept.
pub(crate) fn count_pasts(told: &Option<Told>) -> usize {
    match told {
        Some(
            Told {
                pasts: Some(pasts),
                ..
            },
        ) => pasts.len(),
        _ => 0,
    }
}

/// Puts a copy of a past last. After `Memory` nothing has changed.
fn push_past(alloc: Global, pasts: &mut Vec<Closed>, past: &Closed) -> Result<(), Memory>
    ensures ok { OnOk result (pasts.new.items ≡ pasts.old.items ++ past.now ∷ []) }
    ensures err { OnErr result (pasts.new.items ≡ pasts.old.items) }
{
    pasts.push(copy_closed(alloc, past)?)?;
    Ok(())
}

/// Keeps a copy of what became of a peer. Where there is no memory for it, pasts are told no longer.
pub(crate) fn keep_past(alloc: Global, told: &mut Option<Told>, past: &Closed)
    ensures dials { dials_in told.new ≡ dials_in told.old }
    ensures pasts { Adds past.now (pasts_in told.old) (pasts_in told.new) }
{
    let Some(kept) = told else {
        return;
    };
    let stays = match &mut kept.pasts {
        Some(pasts) => push_past(alloc, pasts, past).is_ok(),
        None => false,
    };
    if !stays {
        kept.pasts = None;
    }
}
