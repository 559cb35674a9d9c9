//! What only the command `link` fails by: in choosing a link, in dialling its centre, and in a session with it.

ghost use Rattle.std.specs.Prelude.{◌≡◌};
ghost use Rattle.boxes_main.specs.LinkFault.{choice_row, end_row, link_row};
ghost use Rattle.boxes_main.specs.Line.{text_in};

use crate::SessionFault;
use crate::failure::Fault;
use crate::line::{CONNECTION_FAULT, Line};

/// Why no link was chosen.
#[derive(Clone, Copy)]
pub enum ChoiceFault {
    /// The configuration has no link with the id.
    NoSuchLink,
    /// The link speaks a protocol that isn't built.
    KindNotBuilt,
}

/// What went wrong in a session of a link.
#[derive(Clone, Copy)]
pub enum EndFault {
    /// What goes wrong in any session.
    Session(SessionFault),
    /// As many entries are recorded as ever may be.
    Full,
    /// The centre refused the login with this code.
    LoginRefused { code: u32 },
    /// The octets behind the last frame are none, at this place.
    BadFrame { at: u64 },
    /// What was said with this tag wasn't answered in time.
    NoReply { tag: u32 },
}

/// What only `link` fails by, by its stages.
#[derive(Clone, Copy)]
pub enum LinkFault {
    /// No link was chosen.
    Choice(ChoiceFault),
    /// No connection to the link's centre could be made.
    Undialled,
    /// A session was held, and something failed in it.
    Session(EndFault),
}

impl Fault for ChoiceFault {
    ghost says = { choice_row };

    fn row(&self) -> (u8, Line) {
        match self {
            ChoiceFault::NoSuchLink => (3, Line::Text(b"boxes: configuration: no such link\n")),
            ChoiceFault::KindNotBuilt => (
                3,
                Line::Text(b"boxes: configuration: link kind not built\n"),
            ),
        }
    }
}

impl Fault for EndFault {
    ghost says = { end_row };

    fn row(&self) -> (u8, Line) {
        match self {
            EndFault::Session(fault) => fault.row(),
            EndFault::Full => (8, Line::Text(b"boxes: store: full\n")),
            EndFault::LoginRefused { code } => (
                10,
                Line::Counted {
                    words: b"boxes: link: login refused ",
                    number: u64::from(*code),
                },
            ),
            EndFault::BadFrame { at } => (
                10,
                Line::Counted {
                    words: b"boxes: link: bad frame at ",
                    number: *at,
                },
            ),
            EndFault::NoReply { tag } => (
                10,
                Line::Counted {
                    words: b"boxes: link: no reply to ",
                    number: u64::from(*tag),
                },
            ),
        }
    }
}

impl Fault for LinkFault {
    ghost says = { link_row };

    fn row(&self) -> (u8, Line) {
        match self {
            LinkFault::Choice(fault) => fault.row(),
            LinkFault::Undialled => (6, Line::Text(CONNECTION_FAULT)),
            LinkFault::Session(fault) => fault.row(),
        }
    }
}
