//! The forms on the machine say what went through, over a runtime of a script, and reach the machine.

use crate::acts::{ClockActs, PeerActs, ShelfActs, SinkActs, put_write};
use crate::fake::Fake;
use crate::memory_forms::put_end;
use kn_base::{Clock, HostClock, HostErrors, HostPeer, HostShelf, Memory, Meter, Octets};
use line_cases::{cut_item, octets_of, put_acts, put_named, put_text};
use std::alloc::Global;
use std::fs::{File, Files};
use std::rt::{Clock as SystemClock, Runtime};

/// A second that is over.
const PAST: u64 = 1_700_000_000;

/// Puts last how often an end found no memory, and what went through the runtime.
fn put_went<M: Meter>(report: &mut Octets, end: &M, fake: &Fake) -> Result<(), Memory> {
    put_named(report, b"starved ", end.starved())?;
    report.extend_from_slice(b" | went ")?;
    put_text(report, fake.wire.get().octets())?;
    report.extend_from_slice(b" | ")
}

/// `fake peer WORD .. | ACTS ..`: standard input and output as a peer, over these words.
pub fn put_fake_peer(alloc: Global, text: &[u8], report: &mut Octets) -> Result<(), Memory> {
    let (script, acts) = cut_item(text);
    let fake = Fake::new(script);
    let mut on = PeerActs {
        peer: HostPeer::new(&fake),
    };
    put_acts(alloc, &mut on, acts, report)?;
    put_went(report, &on.peer, &fake)?;
    put_end(on.peer, report)
}

/// `fake errors WORD .. | ACTS ..`: standard error as a sink, over these words.
pub fn put_fake_errors(alloc: Global, text: &[u8], report: &mut Octets) -> Result<(), Memory> {
    let (script, acts) = cut_item(text);
    let fake = Fake::new(script);
    let mut on = SinkActs {
        sink: HostErrors::new(&fake),
    };
    put_acts(alloc, &mut on, acts, report)?;
    put_went(report, &on.sink, &fake)
}

/// `fake clock WORD .. | ACTS ..`: the machine's clock, over these words, and how long it rested.
pub fn put_fake_clock(alloc: Global, text: &[u8], report: &mut Octets) -> Result<(), Memory> {
    let (script, acts) = cut_item(text);
    let fake = Fake::new(script);
    let clock = HostClock::new(&fake);
    put_acts(alloc, &mut ClockActs { clock }, acts, report)?;
    put_named(report, b"rested for ", fake.rested.get())
}

/// `machine clock`: whether the clock reads a second after `PAST`, and then none before that.
pub fn put_clock<R: SystemClock + Drop>(rt: R, report: &mut Octets) -> Result<(), Memory> {
    let mut clock = HostClock::new(rt);
    let first = clock.now();
    clock.rest(0);
    let second = clock.now();
    put_named(report, b"late ", u64::from(first > PAST))?;
    put_named(report, b", in order ", u64::from(second >= first))
}

/// `machine output TEXT`: gives the text to standard output.
pub fn put_output<R: Input + Print + Drop>(
    rt: R,
    alloc: Global,
    text: &[u8],
    report: &mut Octets,
) -> Result<(), Memory> {
    let text = octets_of(alloc, text)?;
    put_write(&mut HostPeer::new(rt), text.as_slice(), report)
}

/// `machine errors TEXT`: gives the text to standard error.
pub fn put_errors<R: Eprint + Drop>(
    rt: R,
    alloc: Global,
    text: &[u8],
    report: &mut Octets,
) -> Result<(), Memory> {
    let text = octets_of(alloc, text)?;
    put_write(&mut HostErrors::new(rt), text.as_slice(), report)
}

/// `machine shelf NAME ..`: the texts of files.
pub fn put_shelf<R: Files<File = File> + Drop>(
    rt: R,
    alloc: Global,
    names: &[u8],
    report: &mut Octets,
) -> Result<(), Memory> {
    let shelf = HostShelf::new(rt);
    put_acts(alloc, &mut ShelfActs { shelf }, names, report)
}
