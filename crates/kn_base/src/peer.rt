//! The other side of a connection.

ghost use Rattle.std.specs.Prelude.{◌≡◌, None, MatchOption};
ghost use Rattle.kn_base.specs.Talk.{IsPastOf};

use crate::{Past, Sink, Source};

/// A source and a sink in one, with one set of counts and one talk.
pub trait Peer: Source + Sink {
    /// Closes the connection. It gives what it was, where its talk is told.
    fn part(self) -> Option<Past>
        ensures { MatchOption result ((Self.course self).talk ≡ None) (IsPastOf (Self.course self)) };
}
