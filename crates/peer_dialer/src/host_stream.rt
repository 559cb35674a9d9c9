//! A TCP connection as a peer. This is the trusted edge: it tells no content.

ghost use Rattle.kn_base.specs.Course.{IsFresh};

use crate::{Closed, Counted};
use kn_base::{Give, Meter, Past, Peer, Sink, Source, Take, raised};
use std::io::{ErrorKind, Read, Write};

/// The peer on a stream.
///
/// A take is `Quiet` where the stream says that nothing came in the time that was set for it, or a signal came first.
#[derive(Drop)]
pub struct HostStream<S: Read + Write + Drop> {
    stream: S,
    faults: u64,
    quiets: u64,
    ended: bool,
}

impl<S: Read + Write + Drop> HostStream<S> {
    /// The peer before its first call.
    pub fn new(stream: S) -> HostStream<S>
        ensures { IsFresh (⟦<HostStream<S> as Meter>⟧.course result) }
    {
        HostStream {
            stream,
            faults: 0,
            quiets: 0,
            ended: false,
        }
    }
}

/// Whether an error says that nothing came in time.
fn is_quiet(kind: ErrorKind) -> bool {
    match kind {
        ErrorKind::WouldBlock | ErrorKind::TimedOut | ErrorKind::Interrupted => true,
        _ => false,
    }
}

impl<S: Read + Write + Drop> Meter for HostStream<S> {
    ghost use Rattle.peer_dialer.specs.Host.{untold_stream};

    ghost course = { λ p. untold_stream p.faults p.quiets p.ended };

    fn starved(&self) -> u64 {
        0
    }
}

impl<S: Read + Write + Drop> Source for HostStream<S> {
    fn take(&mut self, into: &mut [u8]) -> Take {
        if self.ended {
            return Take::End;
        }
        match self.stream.read(into) {
            Ok(0) => {
                self.ended = true;
                Take::End
            }
            Ok(count) => Take::Bytes(count),
            Err(error) if is_quiet(error.kind()) => {
                self.quiets = raised(self.quiets);
                Take::Quiet
            }
            Err(_) => {
                self.faults = raised(self.faults);
                Take::Failed
            }
        }
    }
}

impl<S: Read + Write + Drop> Sink for HostStream<S> {
    fn give(&mut self, bytes: &[u8]) -> Give {
        match self.stream.write(bytes) {
            Ok(count) if count > 0 => Give::Took(count),
            _ => {
                self.faults = raised(self.faults);
                Give::Failed
            }
        }
    }
}

impl<S: Read + Write + Drop> Peer for HostStream<S> {
    fn part(self) -> Option<Past> {
        None
    }
}

impl<S: Read + Write + Drop> Counted for HostStream<S> {
    fn close(self) -> Closed {
        Closed {
            pieces: None,
            faults: self.faults,
            starved: 0,
            quiets: self.quiets,
            ended: self.ended,
        }
    }
}
