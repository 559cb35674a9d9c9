//! Why a command ends with another status than 0, and what it says of that.

ghost use Rattle.std.specs.Prelude.{◌≡◌};
ghost use Rattle.boxes_main.specs.Failure.{row_of, status_of, Tells};
ghost use Rattle.boxes_main.specs.Line.{Row, text_in};

use crate::OpeningFault;
use crate::line::{Line, give_line};
use kn_base::Sink;

/// What can go wrong. Each kind says itself how the program ends by it.
pub trait Fault {
    /// The status that the program ends with, and the line for standard error.
    ghost says: { Self → Row };

    /// The same.
    fn row(&self) -> (u8, Line)
        ensures { (result.0, text_in result.1) ≡ says self.now };
}

/// What went wrong first, by the stage that it went wrong in. `F` is what only the command itself can fail by.
#[derive(Drop)]
pub enum Failure<F> {
    /// No store was opened.
    Opening(OpeningFault),
    /// The command's own work failed.
    Own(F),
}

impl<F: Fault> Fault for Failure<F> {
    ghost says = { row_of F.says };

    fn row(&self) -> (u8, Line) {
        match self {
            Failure::Opening(fault) => fault.row(),
            Failure::Own(fault) => fault.row(),
        }
    }
}

/// The status that the program ends with.
pub fn status<F: Fault>(failure: &Option<F>) -> u8
    ensures { result ≡ status_of F.says failure.now }
{
    match failure {
        None => 0,
        Some(failure) => failure.row().0,
    }
}

/// Says what went wrong. A sink that fails changes nothing else. It takes no memory.
pub fn tell<S: Sink, F: Fault>(errors: &mut S, failure: &Option<F>)
    ensures { Tells F.says failure.now (S.course errors.old) (S.course errors.new) }
{
    if let Some(failure) = failure {
        let _ = give_line(errors, failure.row().1);
    }
}
