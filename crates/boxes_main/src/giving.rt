//! Giving a text in pieces, without taking memory.

ghost use Rattle.std.specs.Prelude.{◌++◌};
ghost use Rattle.boxes_main.specs.Giving.{GivesText};

use kn_base::{Sink, Wrote, write_all};

/// A give failed: a front of the text went out, and a count of the sink rose.
#[derive(Clone, Copy)]
pub struct Cut;

/// Gives all of one piece.
pub(crate) fn give<S: Sink>(sink: &mut S, piece: &[u8]) -> Result<(), Cut>
    ensures { GivesText piece.now result (S.course sink.old) (S.course sink.new) }
{
    match write_all(sink, piece) {
        Wrote::All => Ok(()),
        Wrote::Failed { .. } => Err(Cut),
    }
}

/// Gives all of two pieces, one behind the other.
pub(crate) fn give_two<S: Sink>(sink: &mut S, first: &[u8], second: &[u8]) -> Result<(), Cut>
    ensures { GivesText (first.now ++ second.now) result (S.course sink.old) (S.course sink.new) }
{
    give(sink, first)?;
    give(sink, second)
}
