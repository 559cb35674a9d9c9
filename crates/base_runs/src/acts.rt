//! What is asked of ends of a connection, clocks and shelves, word by word, and what they answer.

use kn_base::{
    Clock, Give, Memory, Octets, Shelf, ShelfFault, Sink, Source, Take, Wrote, write_all,
};
use line_cases::{Acts, octets_of, put_named, put_text};
use std::alloc::Global;

/// Puts a take into a buffer of four octets last, and the octets that it gave.
fn put_take<S: Source>(source: &mut S, report: &mut Octets) -> Result<(), Memory> {
    let mut buffer = [0; 4];
    match source.take(&mut buffer) {
        Take::Bytes(count) => {
            put_named(report, b"took ", count as u64)?;
            report.extend_from_slice(b" ")?;
            put_text(report, &buffer[..count.min(4)])
        }
        Take::End => report.extend_from_slice(b"end"),
        Take::Quiet => report.extend_from_slice(b"quiet"),
        Take::Failed => report.extend_from_slice(b"failed"),
    }
}

/// Gives octets once, and puts the answer last.
fn put_give<S: Sink>(sink: &mut S, octets: &[u8], report: &mut Octets) -> Result<(), Memory> {
    if octets.is_empty() {
        return Ok(());
    }
    match sink.give(octets) {
        Give::Took(count) => put_named(report, b"took ", count as u64),
        Give::Failed => report.extend_from_slice(b"failed"),
    }
}

/// Gives octets whole, and puts last what came of it.
pub fn put_write<S: Sink>(sink: &mut S, octets: &[u8], report: &mut Octets) -> Result<(), Memory> {
    match write_all(sink, octets) {
        Wrote::All => report.extend_from_slice(b"all"),
        Wrote::Failed { gone } => put_named(report, b"failed behind ", gone as u64),
    }
}

/// `give:OCTETS`, else the octets are given whole.
fn put_sink_act<S: Sink>(
    alloc: Global,
    sink: &mut S,
    word: &[u8],
    report: &mut Octets,
) -> Result<(), Memory> {
    if word.starts_with(b"give:") {
        put_give(sink, octets_of(alloc, &word[5..])?.as_slice(), report)
    } else {
        put_write(sink, octets_of(alloc, word)?.as_slice(), report)
    }
}

/// `take`, or an act of a sink.
#[derive(Drop)]
pub struct PeerActs<P> {
    pub peer: P,
}

impl<P: Source + Sink> Acts for PeerActs<P> {
    fn act(&mut self, alloc: Global, word: &[u8], report: &mut Octets) -> Result<(), Memory> {
        if word == b"take".as_slice() {
            put_take(&mut self.peer, report)
        } else {
            put_sink_act(alloc, &mut self.peer, word, report)
        }
    }
}

/// Acts of a sink.
#[derive(Drop)]
pub struct SinkActs<S> {
    pub sink: S,
}

impl<S: Sink> Acts for SinkActs<S> {
    fn act(&mut self, alloc: Global, word: &[u8], report: &mut Octets) -> Result<(), Memory> {
        put_sink_act(alloc, &mut self.sink, word, report)
    }
}

/// `now` is a reading of a clock; else it rests for 7 seconds.
#[derive(Drop)]
pub struct ClockActs<C> {
    pub clock: C,
}

impl<C: Clock> Acts for ClockActs<C> {
    fn act(&mut self, _alloc: Global, word: &[u8], report: &mut Octets) -> Result<(), Memory> {
        if word == b"now".as_slice() {
            return put_named(report, b"", self.clock.now());
        }
        self.clock.rest(7);
        report.extend_from_slice(b"rested")
    }
}

/// Each word is the name of a file.
#[derive(Drop)]
pub struct ShelfActs<S> {
    pub shelf: S,
}

impl<S: Shelf> Acts for ShelfActs<S> {
    fn act(&mut self, alloc: Global, word: &[u8], report: &mut Octets) -> Result<(), Memory> {
        let name = octets_of(alloc, word)?;
        match self.shelf.file(alloc, name.as_slice()) {
            Ok(text) => put_text(report, text.as_slice()),
            Err(ShelfFault::Failed) => report.extend_from_slice(b"failed"),
            Err(ShelfFault::Memory) => Err(Memory),
        }
    }
}
