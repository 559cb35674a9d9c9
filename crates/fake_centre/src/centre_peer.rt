//! A centre as a peer.

ghost use Rattle.std.specs.Prelude.{◌≡◌, false, ℕ, List, ◌≤◌, ◌<◌, ◌∷◌, [], ◌++◌, min, length, take, IfOk, OnOk, OnErr};
ghost use Rattle.kn_base.specs.Course.{IsFresh, Takes, Gives};
ghost use Rattle.kn_base.specs.declared.piece.Piece.TheVariants as piece_is;

use crate::Centre;
use kn_base::{Give, Items, Memory, Meter, Octets, Past, Peer, Piece, Sink, Source, Take, raised};
use peer_dialer::{Closed, Counted};
use std::alloc::Global;

/// A peer whose other side is a centre. It tells its talk.
///
/// A take gives what the centre has said and wasn't taken yet. Where nothing is left it is `Quiet`, and once the centre has said all of its script and a
/// quiet behind that, `End`; where the session is over, `End` comes without a quiet. A give takes all octets. The one failure is want of memory,
/// which leaves peer and centre as they were.
#[derive(Drop)]
pub struct CentrePeer {
    alloc: Global,
    centre: Centre,
    /// What the centre said, and how many octets of it were taken.
    answers: Octets,
    at: usize,
    pieces: Vec<Piece>,
    starved: u64,
    quiets: u64,
    /// A quiet was answered behind the script.
    rested: bool,
    ended: bool,
    ghost within: { at ≤ length answers },
}

impl CentrePeer {
    ghost use Rattle.fake_centre.specs.CentrePeer.{peer_course, counts_of};

    /// The peer before its first call. It takes no memory.
    pub fn new(alloc: Global, centre: Centre) -> CentrePeer
        ensures { IsFresh (peer_course result) }
    {
        CentrePeer {
            alloc,
            centre,
            answers: Octets::new(alloc),
            at: 0,
            pieces: Vec::new(alloc),
            starved: 0,
            quiets: 0,
            rested: false,
            ended: false,
        }
    }

    /// Lets the centre hear octets, and puts them last among the pieces. After `Memory` it has heard nothing of these.
    fn say(&mut self, octets: &[u8]) -> Result<(), Memory>
        ensures ok { OnOk result (self.new.pieces.items ≡ self.old.pieces.items ++ piece_is.Said octets.now ∷ []) }
        ensures err { OnErr result (self.new.pieces.items ≡ self.old.pieces.items) }
        ensures counts { counts_of self.new ≡ counts_of self.old }
    {
        let piece = Octets::from_slice(self.alloc, octets)?;
        let turn = self.centre.consider(octets)?;
        let answers = joined(
            self.alloc,
            &self.answers.as_slice()[self.at..],
            turn.said.as_slice(),
        )?;
        self.pieces.push(Piece::Said(piece))?;
        self.answers = answers;
        self.at = 0;
        self.centre.follow(turn);
        Ok(())
    }

    /// What a take answers where nothing is left of what the centre said.
    fn wait(&mut self) -> Take
        requires { self.old.ended ≡ false }
        ensures { (buffer : List ℕ) → Takes buffer result (peer_course self.old) (peer_course self.new) }
    {
        let done = self.centre.is_done();
        if self.centre.is_over() || self.rested && done {
            self.ended = true;
            return Take::End;
        }
        self.rested = done;
        self.quiets = raised(self.quiets);
        Take::Quiet
    }
}

/// Octets, and others behind them.
fn joined(alloc: Global, first: &[u8], second: &[u8]) -> Result<Octets, Memory>
    ensures { IfOk result (λ octets. octets ≡ first.now ++ second.now) }
{
    let mut octets = Octets::from_slice(alloc, first)?;
    octets.extend_from_slice(second)?;
    Ok(octets)
}

/// Gives the first octets, as many as the buffer takes, and puts them last among the pieces.
fn hear(
    alloc: Global,
    pieces: &mut Vec<Piece>,
    octets: &[u8],
    into: &mut [u8],
) -> Result<usize, Memory>
    requires room { 0 < length into.old }
    requires some { 0 < length octets.now }
    ensures some { IfOk result (λ count. 1 ≤ count) }
    ensures within { IfOk result (λ count. count ≤ length into.new) }
    ensures count { IfOk result (λ count. count ≡ min (length into.old) (length octets.now)) }
    ensures octets { IfOk result (λ count. take count into.new ≡ take count octets.now) }
    ensures ok { IfOk result (λ count. pieces.new.items ≡ pieces.old.items ++ piece_is.Heard (take count into.new) ∷ []) }
    ensures err { OnErr result (pieces.new.items ≡ pieces.old.items) }
{
    let count = into.len().min(octets.len());
    let heard = Octets::from_slice(alloc, &octets[..count])?;
    pieces.push(Piece::Heard(heard))?;
    into[..count].copy_from_slice(&octets[..count]);
    Ok(count)
}

impl Meter for CentrePeer {
    ghost use Rattle.fake_centre.specs.CentrePeer.{peer_course};

    ghost course = { peer_course };

    fn starved(&self) -> u64 {
        self.starved
    }
}

impl Source for CentrePeer {
    ghost use Rattle.fake_centre.specs.CentrePeer.{peer_course};

    /// Gives what the centre said.
    fn take(&mut self, into: &mut [u8]) -> Take
        requires { 0 < length into.old }
        ensures { Takes into.new result (peer_course self.old) (peer_course self.new) }
    {
        if self.ended {
            return Take::End;
        }
        if self.at >= self.answers.len() {
            return self.wait();
        }
        let left = &self.answers.as_slice()[self.at..];
        match hear(self.alloc, &mut self.pieces, left, into) {
            Ok(count) => {
                self.at += count;
                Take::Bytes(count)
            }
            Err(Memory) => {
                self.starved = raised(self.starved);
                Take::Failed
            }
        }
    }
}

impl Sink for CentrePeer {
    ghost use Rattle.fake_centre.specs.CentrePeer.{peer_course, GivesAll};

    /// Lets the centre hear all octets.
    fn give(&mut self, bytes: &[u8]) -> Give
        requires { 0 < length bytes.now }
        ensures gives { Gives bytes.now result (peer_course self.old) (peer_course self.new) }
        ensures all { GivesAll (length bytes.now) result }
    {
        match self.say(bytes) {
            Ok(()) => Give::Took(bytes.len()),
            Err(Memory) => {
                self.starved = raised(self.starved);
                Give::Failed
            }
        }
    }
}

impl Peer for CentrePeer {
    fn part(self) -> Option<Past> {
        Some(Past {
            pieces: Items::from_vec(self.pieces),
            faults: 0,
            starved: self.starved,
            quiets: self.quiets,
            ended: self.ended,
        })
    }
}

impl Counted for CentrePeer {
    fn close(self) -> Closed {
        Closed {
            pieces: Some(Items::from_vec(self.pieces)),
            faults: 0,
            starved: self.starved,
            quiets: self.quiets,
            ended: self.ended,
        }
    }
}
