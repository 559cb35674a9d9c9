//! How far a session with a centre is.

ghost use Rattle.std.specs.Prelude.{◌≤◌};

/// The greatest sequence_number (SMPP 3.4, 5.1.4).
const MOST_SEQUENCE: u32 = 0x7FFF_FFFF;

/// What a session is at.
#[derive(Clone, Copy, PartialEq)]
pub(crate) enum Phase {
    /// No login was heard.
    New,
    /// The login was good.
    Open,
    /// Nothing more is heard and said.
    Over,
}

/// Where a session is.
#[derive(Clone, Copy)]
pub(crate) struct Place {
    pub(crate) phase: Phase,
    /// How many messages were heard.
    pub(crate) submits: usize,
    /// The sequence_number of the next command that isn't an answer.
    pub(crate) sequence: u32,
}

impl Place {
    /// Before the login.
    pub(crate) fn new() -> Place {
        Place {
            phase: Phase::New,
            submits: 0,
            sequence: 1,
        }
    }

    /// The same in another phase.
    pub(crate) fn in_phase(self, phase: Phase) -> Place {
        Place {
            phase,
            submits: self.submits,
            sequence: self.sequence,
        }
    }

    /// One command more was said.
    pub(crate) fn behind_command(self) -> Place {
        let sequence = if self.sequence >= MOST_SEQUENCE {
            1
        } else {
            self.sequence + 1
        };
        Place {
            phase: self.phase,
            submits: self.submits,
            sequence,
        }
    }

    /// One message more was heard.
    pub(crate) fn behind_message(self) -> Place {
        Place {
            phase: self.phase,
            submits: self.submits.saturating_add(1),
            sequence: self.sequence,
        }
    }
}
