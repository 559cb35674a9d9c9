//! A dialer in memory: its peers stand beforehand, and it tells all that was asked of it.

ghost use Rattle.std.specs.Prelude.{◌≡◌, length, All, None};
ghost use Rattle.std.proofs.Props.{props};
ghost use Rattle.kn_base.specs.Calls.{one_more};
ghost use Rattle.kn_base.specs.Course.{IsFresh};
ghost use Rattle.peer_dialer.specs.Dealings.{Dials, Parts, Adds, Stays, asked_for};
ghost use Rattle.peer_dialer.specs.Told.{dials_in, pasts_in};

use crate::told::{Told, count_pasts, keep_dial, keep_past, make_room};
use crate::{Asked, Closed, Counted, Dialed, Dialer};
use kn_base::{MemCalls, Memory, raised};
use std::alloc::Global;
use std::collections::VecDeque;

/// A dialer whose dials give the peers of a list in order, and then `Gone`.
///
/// Dials are numbered from 0. Those whose numbers are in `failing` fail and use up nothing; a dial whose list is used up doesn't fail. It tells
/// what was asked for, and the pasts of the peers that came back. A dial that finds no memory to keep what was asked for is a fault too, unless no
/// peer is left, and from then on neither is told. Where none is found for the copy of a past, pasts aren't told from then on.
#[derive(Drop)]
pub struct MemDialer<P: Counted + Drop> {
    alloc: Global,
    peers: VecDeque<P>,
    calls: MemCalls,
    told: Option<Told>,
    faults: u64,
    given: u64,
    ghost fresh: { All (λ peer. IsFresh (P.course peer)) peers.items } by { Prim.hlevel props },
}

impl<P: Counted + Drop> MemDialer<P> {
    ghost use Rattle.std.specs.Prelude.{option_map};
    ghost use Rattle.peer_dialer.specs.MemDialer.{mem_dealings, peers_of, dials_of, fresh_dealings};

    /// A dialer that wasn't asked for anything yet, over peers that have made no call. It takes no memory.
    pub fn new(alloc: Global, peers: Vec<P>, failing: Vec<u64>) -> MemDialer<P>
        requires { All (λ peer. IsFresh (P.course peer)) peers.items }
        ensures dealings { mem_dealings result ≡ fresh_dealings (length peers.items) }
        ensures peers { peers_of result ≡ peers.items }
        ensures dials { dials_of result ≡ record { failing = failing.items; made = 0 } }
    {
        MemDialer {
            alloc,
            peers: VecDeque::from(peers),
            calls: MemCalls::new(failing),
            told: Some(Told {
                dials: Vec::new(alloc),
                pasts: Some(Vec::new(alloc)),
            }),
            faults: 0,
            given: 0,
        }
    }

    /// The dialer with its list and the numbers of the dials that are to fail, as one that wasn't asked for anything yet.
    pub fn anew(self) -> MemDialer<P>
        ensures dealings { mem_dealings result ≡ fresh_dealings (length (peers_of self)) }
        ensures peers { peers_of result ≡ peers_of self }
        ensures dials { dials_of result ≡ record { failing = (dials_of self).failing; made = 0 } }
    {
        MemDialer {
            alloc: self.alloc,
            peers: self.peers,
            calls: self.calls.anew(),
            told: Some(Told {
                dials: Vec::new(self.alloc),
                pasts: Some(Vec::new(self.alloc)),
            }),
            faults: 0,
            given: 0,
        }
    }

    /// What was asked for, in order, where it is told.
    pub fn dials(&self) -> Option<&[Asked]>
        ensures { option_map (λ dials. dials.now) result ≡ (mem_dealings self.now).dials }
    {
        match &self.told {
            Some(told) => Some(told.dials.as_slice()),
            None => None,
        }
    }

    /// What became of the peers that came back, in order, where it is told.
    pub fn pasts(&self) -> Option<&[Closed]>
        ensures { option_map (λ pasts. pasts.now) result ≡ (mem_dealings self.now).pasts }
    {
        match &self.told {
            Some(
                Told {
                    pasts: Some(pasts),
                    ..
                },
            ) => Some(pasts.as_slice()),
            _ => None,
        }
    }

    /// How many dials failed.
    pub fn faults(&self) -> u64
        ensures { result ≡ (mem_dealings self.now).faults }
    {
        self.faults
    }

    /// How many dials gave a peer.
    pub fn given(&self) -> u64
        ensures { result ≡ (mem_dealings self.now).given }
    {
        self.given
    }
}

/// Keeps what was asked for, and makes room for the past of one peer more than the `given` ones.
fn prepare(
    alloc: Global,
    told: &mut Option<Told>,
    host: &[u8],
    port: u16,
    given: u64,
) -> Result<(), Memory>
    ensures dials { Adds (asked_for host.now port) (dials_in told.old) (dials_in told.new) }
    ensures pasts { Stays (pasts_in told.old) (pasts_in told.new) }
    ensures together { dials_in told.new ≡ None → pasts_in told.new ≡ None }
{
    keep_dial(alloc, told, host, port)?;
    let away = (given as usize).saturating_sub(count_pasts(told));
    make_room(told, away.saturating_add(1))
}

impl<P: Counted + Drop> Dialer for MemDialer<P> {
    type P = P;

    ghost use Rattle.std.specs.Prelude.{IfSome, None};
    ghost use Rattle.peer_dialer.specs.MemDialer.{mem_dealings, peers_of, dials_of, AnswersDial, faults_after};

    ghost dealings = { mem_dealings };

    /// Gives the next peer, unless the dial is one of those that are to fail.
    fn dial(&mut self, host: &[u8], port: u16) -> Dialed<P>
        ensures dials { Dials P.course host.now port result (mem_dealings self.old) (mem_dealings self.new) }
        ensures answers { AnswersDial (dials_of self.old) result (peers_of self.old) (peers_of self.new) }
        ensures counted { dials_of self.new ≡ one_more (dials_of self.old) }
        ensures faults { (mem_dealings self.new).faults ≡ faults_after result (mem_dealings self.old).faults }
    {
        let fails = self.calls.next_fails();
        let prepared = prepare(self.alloc, &mut self.told, host, port, self.given);
        if self.peers.is_empty() {
            return Dialed::Gone;
        }
        if fails || prepared.is_err() {
            self.faults = raised(self.faults);
            return Dialed::Failed;
        }
        match self.peers.pop_front() {
            Some(peer) => {
                self.given = raised(self.given);
                Dialed::Peer(peer)
            }
            None => Dialed::Gone,
        }
    }

    /// Closes a connection, and keeps a copy of what it was.
    fn back(&mut self, peer: P) -> Closed
        ensures parts { Parts (P.course peer) result (mem_dealings self.old) (mem_dealings self.new) }
        ensures peers { peers_of self.new ≡ peers_of self.old }
        ensures uncounted { dials_of self.new ≡ dials_of self.old }
    {
        let closed = peer.close();
        keep_past(self.alloc, &mut self.told, &closed);
        closed
    }
}
