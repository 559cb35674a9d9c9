//! Where octets come from.

ghost use Rattle.std.specs.Prelude.{◌<◌, length};
ghost use Rattle.kn_base.specs.Course.{Takes};

use crate::Meter;

/// What a take answers.
#[derive(Clone, Copy, Debug, PartialEq)]
pub enum Take {
    /// The first so many octets of the buffer are the next ones, one at least.
    Bytes(usize),
    /// Nothing is left, and every later take answers so too.
    End,
    /// Nothing came in time. The count of quiets rose.
    Quiet,
    /// The take failed. The count of faults rose, or that of want of memory.
    Failed,
}

/// Octets to be taken one piece after another.
pub trait Source: Meter {
    /// Takes the next octets into the front of `into`.
    fn take(&mut self, into: &mut [u8]) -> Take
        requires { 0 < length into.old }
        ensures { Takes into.new result (Self.course self.old) (Self.course self.new) };
}
