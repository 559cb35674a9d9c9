//! Dialers in memory.

ghost use Rattle.std.specs.Prelude.{All, IfOk};
ghost use Rattle.kn_base.specs.Course.{IsFresh};
ghost use Rattle.kn_base.specs.MemCourse.{mem_course};

use crate::ends::{put_closed, put_give, put_take};
use kn_base::{MemPeer, MemTake, Memory, Octets, Peer};
use line_cases::{
    Acts, both, cut_at, cut_item, number, numbers_of, octets_of, put_acts, put_named, put_text,
    words_of,
};
use peer_dialer::{Asked, Closed, Dialed, Dialer, MemDialer};
use std::alloc::Global;

/// A peer that says one thing.
fn peer_of(alloc: Global, word: &[u8]) -> Result<MemPeer, Memory>
    ensures { IfOk result (λ peer. IsFresh (mem_course peer)) }
{
    let mut takes = Vec::new(alloc);
    takes.push(MemTake::Bytes(octets_of(alloc, word)?))?;
    Ok(MemPeer::new(alloc, takes, Vec::new(alloc)))
}

/// A peer for each word.
fn peers_of(alloc: Global, words: &[&[u8]]) -> Result<Vec<MemPeer>, Memory>
    ensures { IfOk result (λ peers. All (λ peer. IsFresh (mem_course peer)) peers.items) }
{
    let mut peers = Vec::new(alloc);
    for word in words {
        peers.push(peer_of(alloc, word)?)?;
    }
    Ok(peers)
}

/// Hears and says once.
fn put_call<P: Peer>(peer: &mut P, report: &mut Octets) -> Result<(), Memory> {
    put_take(peer, report)?;
    report.push(b' ')?;
    put_give(peer, b"ok", report)?;
    report.extend_from_slice(b", ")
}

/// Dials, hears and says once, and closes the connection.
#[derive(Drop)]
struct Calls<D> {
    dialer: D,
}

impl<D: Dialer> Acts for Calls<D> {
    fn act(&mut self, _alloc: Global, word: &[u8], report: &mut Octets) -> Result<(), Memory> {
        let (host, port) = cut_at(word, b':');
        match self.dialer.dial(host, number(port).min(65_535) as u16) {
            Dialed::Peer(peer) => {
                let mut peer = peer;
                let call = put_call(&mut peer, report);
                let past = self.dialer.back(peer);
                call?;
                put_closed(report, &past)
            }
            Dialed::Failed => report.extend_from_slice(b"failed"),
            Dialed::Gone => report.extend_from_slice(b"gone"),
        }
    }
}

/// Puts last what was asked for.
fn put_dials(report: &mut Octets, dials: Option<&[Asked]>) -> Result<(), Memory> {
    let Some(dials) = dials else {
        return report.extend_from_slice(b"not told");
    };
    report.extend_from_slice(b"dialled")?;
    for asked in dials {
        report.push(b' ')?;
        put_text(report, asked.host.as_slice())?;
        put_named(report, b":", u64::from(asked.port))?;
    }
    Ok(())
}

/// Puts last what became of the peers that came back.
fn put_pasts(report: &mut Octets, pasts: Option<&[Closed]>) -> Result<(), Memory> {
    let Some(pasts) = pasts else {
        return report.extend_from_slice(b" | not told");
    };
    for past in pasts {
        report.extend_from_slice(b" | ")?;
        put_closed(report, past)?;
    }
    Ok(())
}

/// `dialer WORD .. | FAILING .. | HOST:PORT ..`: a dialer of a peer for each word, which says it, and whose dials of these numbers fail.
pub fn put_dialer(alloc: Global, text: &[u8], report: &mut Octets) -> Result<(), Memory> {
    let (words, text) = cut_item(text);
    let (failing, acts) = cut_item(text);
    let (words, failing) = both(words_of(alloc, words), numbers_of(alloc, failing))?;
    let peers = peers_of(alloc, words.as_slice())?;
    let mut calls = Calls {
        dialer: MemDialer::new(alloc, peers, failing),
    };
    put_acts(alloc, &mut calls, acts, report)?;
    put_named(report, b"faults ", calls.dialer.faults())?;
    put_named(report, b", given ", calls.dialer.given())?;
    report.extend_from_slice(b", ")?;
    put_dials(report, calls.dialer.dials())?;
    put_pasts(report, calls.dialer.pasts())
}
