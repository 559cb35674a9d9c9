//! Giving all of some octets.

ghost use Rattle.kn_base.specs.Talk.{WritesAll};

use crate::{Give, Sink};

/// What came of giving octets to a sink.
#[derive(Clone, Copy, Debug, PartialEq)]
pub enum Wrote {
    /// All of them went out.
    All,
    /// Exactly the first `gone` went out, and then a give failed: a count of the sink rose.
    Failed { gone: usize },
}

/// Gives all the octets, in as many gives as it takes. It takes no memory.
pub fn write_all<S: Sink>(sink: &mut S, bytes: &[u8]) -> Wrote
    ensures { WritesAll bytes.now result (S.course sink.old) (S.course sink.new) }
{
    let mut gone = 0;
    while gone < bytes.len() {
        match sink.give(&bytes[gone..]) {
            Give::Took(taken) => gone += taken,
            Give::Failed => return Wrote::Failed { gone },
        }
    }
    Wrote::All
}
