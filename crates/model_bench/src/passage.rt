//! The way of messages through a gate.

ghost use Rattle.std.specs.Prelude.{◌≡◌, ◌≤◌, ◌∷◌, [], false, length, IfSome};
ghost use Rattle.gate_entries.specs.Entry.{IsEntry};
ghost use Rattle.gate_model.specs.Gate.{model_of};

use crate::message::NOW;
use crate::rules::rules;
use gate_entries::{Acked, Passing, Recorded, read_entry};
use gate_model::Gate;
use kn_base::Octets;
use std::alloc::Global;

/// The birth of the store.
pub(crate) const BIRTH: u64 = 1;

/// The one link.
const LINK: u32 = 0;

/// How many messages the link has in flight at most.
const WINDOW: usize = 10;

/// The messages that the link has taken, in the places where it took them.
type Window = [Option<u64>; WINDOW];

/// A gate with one link, which is down.
pub(crate) fn born(alloc: Global) -> Option<Gate>
    ensures down { IfSome result (λ gate. (model_of gate).up ≡ false ∷ []) }
{
    match Gate::new(alloc, rules(alloc).ok()?) {
        Ok(gate) => Some(gate),
        Err(_) => None,
    }
}

/// Hands a gate an entry, and says whether it took it.
pub(crate) fn put_entry(gate: &mut Gate, entry: Recorded) -> bool
    requires spelled { IsEntry entry }
    ensures up { (model_of gate.new).up ≡ (model_of gate.old).up }
{
    if gate.check(&entry).is_err() {
        return false;
    }
    if !gate.suits(&entry) {
        return false;
    }
    match gate.prepare(entry, BIRTH) {
        Ok(ready) => {
            let _ = gate.apply(ready);
            true
        }
        Err(_) => false,
    }
}

/// Hands a gate the entry that a payload is, and says whether it took it.
fn put_payload(alloc: Global, gate: &mut Gate, payload: &[u8]) -> bool
    ensures up { (model_of gate.new).up ≡ (model_of gate.old).up }
{
    match read_entry(alloc, payload) {
        Ok(entry) => put_entry(gate, entry),
        Err(_) => false,
    }
}

/// Hands a gate an entry so many times, and says whether it took each.
pub(crate) fn accept_all(alloc: Global, gate: &mut Gate, payload: &[u8], count: u64) -> bool
    ensures up { (model_of gate.new).up ≡ (model_of gate.old).up }
{
    for _ in 0..count {
        if !put_payload(alloc, gate, payload) {
            return false;
        }
    }
    true
}

/// The link is up.
pub(crate) fn bring_up(gate: &mut Gate)
    requires down { (model_of gate.old).up ≡ false ∷ [] }
{
    gate.pass(Passing::Up { link: LINK });
}

/// The link takes the next message, where there is one.
fn take(gate: &mut Gate) -> Option<u64>
{
    let message = gate.next_for(LINK, NOW)?;
    gate.pass(Passing::Took {
        link: LINK,
        message,
        time: NOW,
    });
    Some(message)
}

/// How a centre names a message that it takes: by its number, or not at all.
#[derive(Clone, Copy)]
pub(crate) enum Naming {
    Numbers,
    Nothing,
}

/// What a centre names a message. `None` where there is no memory.
pub(crate) fn name_of(alloc: Global, message: u64, naming: Naming) -> Option<Octets>
    ensures { IfSome result (λ name. length name ≤ 8) }
{
    match naming {
        Naming::Numbers => Octets::from_slice(alloc, &message.to_be_bytes()).ok(),
        Naming::Nothing => Some(Octets::new(alloc)),
    }
}

/// The centre took a message. Whether it is so is said.
fn acknowledge_one(alloc: Global, gate: &mut Gate, message: u64, naming: Naming) -> bool
{
    let Some(foreign) = name_of(alloc, message, naming) else {
        return false;
    };
    put_entry(
        gate,
        Recorded::Acked(Acked {
            message,
            smsc: Octets::new(alloc),
            foreign,
            time: NOW,
        }),
    )
}

/// The centre took a message of the window, where there is one. Whether it is so is said.
fn acknowledge(alloc: Global, gate: &mut Gate, taken: Option<u64>, naming: Naming) -> bool
{
    match taken {
        Some(message) => acknowledge_one(alloc, gate, message, naming),
        None => true,
    }
}

/// The link takes each of so many messages, and the oldest in its window is acknowledged before it takes another.
pub(crate) fn acknowledge_all(alloc: Global, gate: &mut Gate, count: u64, naming: Naming) -> bool
{
    let mut window: Window = [None; WINDOW];
    for turn in 0..count.saturating_add(WINDOW as u64) {
        let place = (turn % WINDOW as u64) as usize;
        if !acknowledge(alloc, gate, window[place], naming) {
            return false;
        }
        window[place] = take(gate);
    }
    true
}

/// The link fills its window.
fn fill(gate: &mut Gate) -> Window
{
    let mut window: Window = [None; WINDOW];
    for place in 0..WINDOW {
        window[place] = take(gate);
    }
    window
}

/// The messages of a window are acknowledged in this order of their places: 3, 0, 7, 4, 1, 8, 5, 2, 9, 6.
fn empty(alloc: Global, gate: &mut Gate, window: &Window) -> bool
{
    for turn in 0..WINDOW {
        if !acknowledge(
            alloc,
            gate,
            window[(7 * turn + 3) % WINDOW],
            Naming::Nothing,
        ) {
            return false;
        }
    }
    true
}

/// The link takes each of so many messages, and its window is acknowledged, in another order, each time that it is full.
pub(crate) fn acknowledge_shuffled(alloc: Global, gate: &mut Gate, count: u64) -> bool
{
    for _ in 0..count / WINDOW as u64 + 1 {
        let window = fill(gate);
        if !empty(alloc, gate, &window) {
            return false;
        }
    }
    true
}
