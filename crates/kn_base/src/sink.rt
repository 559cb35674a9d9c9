//! Where octets go.

ghost use Rattle.std.specs.Prelude.{◌<◌, length};
ghost use Rattle.kn_base.specs.Course.{Gives};

use crate::Meter;

/// What a give answers.
#[derive(Clone, Copy, Debug, PartialEq)]
pub enum Give {
    /// The first so many octets went out, one at least.
    Took(usize),
    /// None went out. The count of faults rose, or that of want of memory.
    Failed,
}

/// A place that takes octets one piece after another.
pub trait Sink: Meter {
    /// Gives the first octets, as many as are taken at once.
    fn give(&mut self, bytes: &[u8]) -> Give
        requires { 0 < length bytes.now }
        ensures { Gives bytes.now result (Self.course self.old) (Self.course self.new) };
}
