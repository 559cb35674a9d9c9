//! What goes wrong in a session, over HTTP or of a link.

ghost use Rattle.std.specs.Prelude.{◌≡◌};
ghost use Rattle.boxes_main.specs.Line.{text_in};
ghost use Rattle.boxes_main.specs.SessionFault.{session_row};

use crate::failure::Fault;
use crate::line::{CONNECTION_FAULT, DISK_FAULT, Line, OUT_OF_MEMORY};

/// What went wrong in a session, whatever it speaks.
#[derive(Clone, Copy)]
pub enum SessionFault {
    /// A disk call failed in a commit.
    Disk,
    /// The connection, or standard input or output, failed; over HTTP also where it was quiet.
    Connection,
    /// As many octets were heard as may be, or as long as may be nothing was, and no end came.
    Budget,
    /// There was no memory for hearing or saying; over HTTP, outside a request that was answered so.
    Memory,
}

impl Fault for SessionFault {
    ghost says = { session_row };

    fn row(&self) -> (u8, Line) {
        match self {
            SessionFault::Disk => (5, Line::Text(DISK_FAULT)),
            SessionFault::Connection => (6, Line::Text(CONNECTION_FAULT)),
            SessionFault::Budget => (7, Line::Text(b"boxes: budget spent\n")),
            SessionFault::Memory => (9, Line::Text(OUT_OF_MEMORY)),
        }
    }
}
