//! A store that answers what its case says.

use gate_model::{Acceptor, Refusal, Reply};
use kn_base::raised;
use line_cases::cut_at;
use sms_record::Sms;

/// A store with its answers, by their names: `queued`, `sent`, `full`, `disk`, `no-route`, `memory`. They stand between commas, and the last
/// one is given again and again.
#[derive(Drop)]
pub struct Store<'a> {
    answers: &'a [u8],
    /// How often something was handed in.
    pub handed: u64,
    /// At which time that was last.
    pub time: u64,
    faults: u64,
}

impl<'a> Store<'a> {
    /// A store that was handed nothing yet.
    pub fn new(answers: &'a [u8]) -> Store<'a> {
        Store {
            answers,
            handed: 0,
            time: 0,
            faults: 0,
        }
    }
}

/// The answers behind the first one, which stays where it is the last.
fn behind_first(answers: &[u8]) -> &[u8] {
    let (_, behind) = cut_at(answers, b',');
    if behind.is_empty() { answers } else { behind }
}

/// What the first of the answers says: whether the message has to wait, or a refusal.
fn first_of(answers: &[u8]) -> Result<bool, Refusal> {
    let (name, _) = cut_at(answers, b',');
    match name {
        b"queued" => Ok(true),
        b"sent" => Ok(false),
        b"full" => Err(Refusal::Full { held: 9, limit: 9 }),
        b"no-route" => Err(Refusal::NoRoute { part: 0 }),
        b"memory" => Err(Refusal::Memory),
        _ => Err(Refusal::Disk),
    }
}

impl<'a> Acceptor for Store<'a> {
    ghost use Rattle.std.specs.Prelude.{ℕ};

    ghost faults = { λ s. s.faults };

    ghost leads = { λ _ _ _. Unit {0} };

    ghost can_submit = { λ _. Unit {0} };

    ghost leads_nowhere = { λ _. tt };

    ghost leads_on = { λ _ _ _ _ _ _ _. tt };

    fn submit(&mut self, _parts: Vec<Sms>, time: u64) -> Result<Reply, Refusal> {
        self.handed = raised(self.handed);
        self.time = time;
        let outcome = first_of(self.answers);
        self.answers = behind_first(self.answers);
        match outcome {
            Ok(queued) => Ok(Reply::Accepted {
                first: 1,
                count: 1,
                queued,
            }),
            Err(Refusal::Disk) => {
                self.faults = raised(self.faults);
                Err(Refusal::Disk)
            }
            Err(refusal) => Err(refusal),
        }
    }
}
