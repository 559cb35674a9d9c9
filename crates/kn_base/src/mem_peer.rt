//! A peer in memory: what it says stands beforehand, and it tells all that it went through.

ghost use Rattle.std.specs.Prelude.{◌≡◌, ◌≤◌, ◌<◌, min, true, [], ◌∷◌, ◌++◌, length, take, drop, IfOk, OnOk, OnErr};
ghost use Rattle.kn_base.specs.Course.{Takes, Gives};
ghost use Rattle.kn_base.specs.Script.{octets_of, some_answers, AnswersTake, AnswersGive};
ghost use Rattle.kn_base.specs.MemPeer.{answers_left, front_len, IsReady};
ghost use Rattle.kn_base.specs.declared.piece.Piece.TheVariants as said;

use crate::{
    Give, Items, MemCalls, MemTake, Memory, Meter, Octets, Past, Peer, Piece, Sink, Source, Take,
    raised,
};
use std::alloc::Global;
use std::collections::VecDeque;

/// A peer whose takes are answered from a list, and then by `End`.
///
/// Takes and gives are numbered together, from 0. Those whose numbers are in `failing` fail and use up nothing;
/// a take whose list is used up doesn't fail.
#[derive(Drop)]
pub struct MemPeer {
    alloc: Global,
    answers: VecDeque<MemTake>,
    at: usize,
    calls: MemCalls,
    pieces: Vec<Piece>,
    faults: u64,
    starved: u64,
    quiets: u64,
    ended: bool,
    ghost within: { at ≤ front_len answers.items },
    ghost ends_empty: { ended ≡ true → answers_left at answers.items ≡ [] },
}

impl MemPeer {
    ghost use Rattle.kn_base.specs.MemCourse.{mem_course, mem_script, fresh_course};

    /// A peer that has made no call. It takes no memory.
    pub fn new(alloc: Global, takes: Vec<MemTake>, failing: Vec<u64>) -> MemPeer
        ensures course { mem_course result ≡ fresh_course (octets_of takes.items) }
        ensures script { mem_script result ≡ record { answers = some_answers takes.items; calls = record { failing = failing.items; made = 0 } } }
    {
        MemPeer {
            alloc,
            answers: VecDeque::from(takes),
            at: 0,
            calls: MemCalls::new(failing),
            pieces: Vec::new(alloc),
            faults: 0,
            starved: 0,
            quiets: 0,
            ended: false,
        }
    }

    /// Leaves the answers at the front that are used up.
    fn leave_used_up(&mut self)
        ensures course { mem_course self.new ≡ mem_course self.old }
        ensures script { mem_script self.new ≡ mem_script self.old }
        ensures ready { IsReady self.new.at self.new.answers.items }
        ensures none { answers_left self.new.at self.new.answers.items ≡ [] → self.new.answers.items ≡ [] }
    {
        while let Some(MemTake::Bytes(octets)) = self.answers.front() {
            if self.at < octets.len() {
                return;
            }
            self.answers.pop_front();
            self.at = 0;
        }
    }
}

/// Gives octets of an answer from a place on, as many as the buffer takes, and puts them last among the pieces.
fn hear(
    alloc: Global,
    pieces: &mut Vec<Piece>,
    octets: &[u8],
    at: usize,
    into: &mut [u8],
) -> Result<usize, Memory>
    requires { at ≤ length octets.now }
    ensures count { IfOk result (λ count. count ≡ min (length into.old) (length (drop at octets.now))) }
    ensures octets { IfOk result (λ count. take count into.new ≡ take count (drop at octets.now)) }
    ensures ok { IfOk result (λ count. pieces.new.items ≡ pieces.old.items ++ said.Heard (take count (drop at octets.now)) ∷ []) }
    ensures err { OnErr result (pieces.new.items ≡ pieces.old.items) }
{
    let left = &octets[at..];
    let count = into.len().min(left.len());
    let heard = Octets::from_slice(alloc, &left[..count])?;
    pieces.push(Piece::Heard(heard))?;
    into[..count].copy_from_slice(&left[..count]);
    Ok(count)
}

/// Puts what was said last among the pieces.
fn say(alloc: Global, pieces: &mut Vec<Piece>, bytes: &[u8]) -> Result<(), Memory>
    ensures ok { OnOk result (pieces.new.items ≡ pieces.old.items ++ said.Said bytes.now ∷ []) }
    ensures err { OnErr result (pieces.new.items ≡ pieces.old.items) }
{
    let said = Octets::from_slice(alloc, bytes)?;
    pieces.push(Piece::Said(said))?;
    Ok(())
}

impl Meter for MemPeer {
    ghost use Rattle.kn_base.specs.MemCourse.{mem_course};

    ghost course = { mem_course };

    fn starved(&self) -> u64 {
        self.starved
    }
}

impl Source for MemPeer {
    ghost use Rattle.kn_base.specs.MemCourse.{mem_course, mem_script, mem_counts};

    /// Takes the next octets of the answer whose turn it is, as the script has it.
    fn take(&mut self, into: &mut [u8]) -> Take
        requires { 0 < length into.old }
        ensures takes { Takes into.new result (mem_course self.old) (mem_course self.new) }
        ensures script { AnswersTake (length into.old) result (mem_script self.old) (mem_script self.new) (mem_counts self.old) (mem_counts self.new) }
    {
        let fails = self.calls.next_fails();
        self.leave_used_up();
        match self.answers.front() {
            None => {
                self.ended = true;
                Take::End
            }
            Some(_) if fails => {
                self.faults = raised(self.faults);
                Take::Failed
            }
            Some(MemTake::Quiet) => {
                self.answers.pop_front();
                self.quiets = raised(self.quiets);
                Take::Quiet
            }
            Some(MemTake::Bytes(octets)) => {
                match hear(
                    self.alloc,
                    &mut self.pieces,
                    octets.as_slice(),
                    self.at,
                    into,
                ) {
                    Ok(count) => {
                        self.at += count;
                        Take::Bytes(count)
                    }
                    Err(Memory) => {
                        self.starved = raised(self.starved);
                        Take::Failed
                    }
                }
            }
        }
    }
}

impl Sink for MemPeer {
    ghost use Rattle.kn_base.specs.MemCourse.{mem_course, mem_script, mem_counts};

    /// Takes all octets, unless the call is one of those that are to fail.
    fn give(&mut self, bytes: &[u8]) -> Give
        requires { 0 < length bytes.now }
        ensures gives { Gives bytes.now result (mem_course self.old) (mem_course self.new) }
        ensures script { AnswersGive bytes.now result (mem_script self.old) (mem_script self.new) (mem_counts self.old) (mem_counts self.new) }
    {
        if self.calls.next_fails() {
            self.faults = raised(self.faults);
            return Give::Failed;
        }
        match say(self.alloc, &mut self.pieces, bytes) {
            Ok(()) => Give::Took(bytes.len()),
            Err(Memory) => {
                self.starved = raised(self.starved);
                Give::Failed
            }
        }
    }
}

impl Peer for MemPeer {
    fn part(self) -> Option<Past> {
        Some(Past {
            pieces: Items::from_vec(self.pieces),
            faults: self.faults,
            starved: self.starved,
            quiets: self.quiets,
            ended: self.ended,
        })
    }
}
