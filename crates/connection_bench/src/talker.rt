//! A peer that says a text in pieces of one size.

use kn_base::{Give, Meter, Past, Peer, Sink, Source, Take};

/// A peer that says what is left of a text, in pieces of at most so many octets, and counts what is said to it.
#[derive(Drop)]
pub struct Talker<'a> {
    left: &'a [u8],
    cut: usize,
    said: u64,
    ended: bool,
}

impl<'a> Talker<'a> {
    /// A peer that said nothing yet.
    pub fn new(text: &'a [u8], cut: usize) -> Talker<'a> {
        Talker {
            left: text,
            cut: cut.max(1),
            said: 0,
            ended: false,
        }
    }

    /// How many octets of its text it said.
    pub fn heard(&self, text: &[u8]) -> u64 {
        text.len().saturating_sub(self.left.len()) as u64
    }

    /// How many octets were said to it.
    pub fn said(&self) -> u64 {
        self.said
    }
}

impl<'a> Meter for Talker<'a> {
    ghost use Rattle.kn_base.specs.Host.{untold_course};

    ghost course = { λ p. untold_course 0 p.ended };

    fn starved(&self) -> u64 {
        0
    }
}

impl<'a> Source for Talker<'a> {
    fn take(&mut self, into: &mut [u8]) -> Take {
        let count = into.len().min(self.cut).min(self.left.len());
        if self.ended || count == 0 {
            self.ended = true;
            return Take::End;
        }
        let (front, behind) = self.left.split_at(count);
        into[..count].copy_from_slice(front);
        self.left = behind;
        Take::Bytes(count)
    }
}

impl<'a> Sink for Talker<'a> {
    fn give(&mut self, bytes: &[u8]) -> Give {
        self.said = self.said.saturating_add(bytes.len() as u64);
        Give::Took(bytes.len())
    }
}

impl<'a> Peer for Talker<'a> {
    fn part(self) -> Option<Past> {
        None
    }
}
