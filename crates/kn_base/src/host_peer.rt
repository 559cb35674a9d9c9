//! Standard input and output as a peer. This is the trusted edge: it tells no content.

ghost use Rattle.kn_base.specs.Course.{IsFresh};

use crate::{Give, Meter, Past, Peer, Sink, Source, Take, raised};
use std::io::Read;

/// The peer on standard input and output.
#[derive(Drop)]
pub struct HostPeer<R: Input + Print + Drop> {
    rt: R,
    input: R::Reader,
    faults: u64,
    ended: bool,
}

impl<R: Input + Print + Drop> HostPeer<R> {
    /// The peer before its first call.
    pub fn new(rt: R) -> HostPeer<R>
        ensures { IsFresh (⟦<HostPeer<R> as Meter>⟧.course result) }
    {
        let input = rt.reader();
        HostPeer {
            rt,
            input,
            faults: 0,
            ended: false,
        }
    }
}

impl<R: Input + Print + Drop> Meter for HostPeer<R> {
    ghost use Rattle.kn_base.specs.Host.{untold_course};

    ghost course = { λ p. untold_course p.faults p.ended };

    fn starved(&self) -> u64 {
        0
    }
}

impl<R: Input + Print + Drop> Source for HostPeer<R> {
    fn take(&mut self, into: &mut [u8]) -> Take {
        if self.ended {
            return Take::End;
        }
        match self.input.read(into) {
            Ok(0) => {
                self.ended = true;
                Take::End
            }
            Ok(count) => Take::Bytes(count),
            Err(_) => {
                self.faults = raised(self.faults);
                Take::Failed
            }
        }
    }
}

impl<R: Input + Print + Drop> Sink for HostPeer<R> {
    fn give(&mut self, bytes: &[u8]) -> Give {
        match self.rt.write_some(bytes) {
            Ok(count) if count > 0 => Give::Took(count),
            _ => {
                self.faults = raised(self.faults);
                Give::Failed
            }
        }
    }
}

impl<R: Input + Print + Drop> Peer for HostPeer<R> {
    fn part(self) -> Option<Past> {
        None
    }
}
