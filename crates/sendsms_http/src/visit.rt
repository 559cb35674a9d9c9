//! One connection over HTTP by itself, without its peer and without the store.

ghost use Rattle.std.specs.Prelude.{◌≡◌, ◌<◌, ◌≤◌, ◌+◌, ◌^◌, ◌++◌, [], true, false, drop, length, take};
ghost use Rattle.config_groups.specs.Ranges.{AreSettings};
ghost use Rattle.http_text.specs.Head.{NeedsMore};
ghost use Rattle.sendsms_http.specs.Visit as spec;

mod answers;
mod heads;

use crate::HttpEnd;
use config_groups::Settings;
use gate_model::{Refusal, Reply};
use http_text::{Answer, Place};
use kn_base::Octets;
use sms_record::Sms;
use std::alloc::Global;

/// What a visit is given: what came of what it wished.
#[derive(Drop)]
pub enum VisitGiven {
    /// The connection stands.
    Begin,
    /// Octets came, one at least.
    Heard(Octets),
    /// Nothing came in time.
    Quiet,
    /// Nothing more comes.
    End,
    /// Listening failed.
    Fault,
    /// The answer was said whole.
    Said,
    /// Saying the answer failed.
    SayFault,
    /// The store's answer to the parts that were handed in.
    Answered(Result<Reply, Refusal>),
}

/// What a visit wishes to be done next.
#[derive(Drop)]
pub enum VisitWish {
    /// To hear what comes.
    Listen,
    /// To hand the parts of a message to the store, at a reading of the clock in Unix seconds.
    Submit { time: u64, parts: Vec<Sms> },
    /// To say an answer. `close` says that the connection closes behind it.
    Say { answer: Answer, close: bool },
    /// Nothing: it is over.
    Over(HttpEnd),
}

/// What a visit does at the moment.
#[derive(Clone, Copy)]
enum Phase {
    /// It hasn't begun.
    Fresh,
    /// It listens. What it keeps needs more, and ends at this place.
    Listening { place: Place },
    /// A message was handed in.
    Submitting { close: bool },
    /// An answer is being said.
    Saying { close: bool },
    /// It is over.
    Done,
}

/// One connection over HTTP: heads are cut off in front of what was heard, and each is answered, up to the first answer behind which the
/// connection closes.
///
/// ```text
///  Begin            Heard, no whole head
///    |   +------------------------------------+
///    v   v                                    |
///  looks at what it keeps --- needs more ---> Listen --- End, nothing kept ---> Over(End)
///    ^   |        |                             | |
///    |   |        +-- no head, no memory --+    | +--- Quiet, Fault ----------> Over(Quiet), Over(Fault)
///    |   | a head                          |    | End within a head
///    |   +--- refused ---------------------+----+
///    |   |                                 v
///    |   +--- Submit --- Answered -------> Say --- Said, closing -------------> Over(End)
///    |                                     | |
///    +------------- Said, kept ------------+ +--- SayFault -------------------> Over(Fault)
/// ```
///
/// Where more is needed and as many octets were given as may be, it is `Over(Budget)` in place of `Listen`.
#[derive(Drop)]
pub struct Visit {
    alloc: Global,
    /// The most octets that it is given.
    budget: u64,
    /// How many it was given.
    taken: u64,
    /// What was heard and isn't dealt with.
    kept: Octets,
    phase: Phase,
}

impl Visit {
    /// A visit that is given at most so many octets. It takes no memory.
    pub fn new(alloc: Global, budget: u64) -> Visit
        ensures { spec.IsNew budget result }
    {
        Visit {
            alloc,
            budget,
            taken: 0,
            kept: Octets::new(alloc),
            phase: Phase::Fresh,
        }
    }

    /// How many octets it may still be given.
    pub fn room(&self) -> u64
        requires { spec.IsVisit self.now }
        ensures { result + spec.taken_by self.now ≡ spec.budget_of self.now }
    {
        self.budget - self.taken
    }

    /// Takes what came of the last wish, and gives the next one, at the reading `now` of the clock in Unix seconds.
    ///
    /// Begin comes first; behind Listen comes Heard, Quiet, End or Fault; behind Submit Answered; behind Say Said or SayFault; behind Over
    /// nothing. Want of memory while a request is read is answered 500, and the connection closes behind it.
    pub fn next(&mut self, settings: &Settings, given: VisitGiven, now: u64) -> VisitWish
        requires visit { spec.IsVisit self.old }
        requires fits { spec.Fits self.old given }
        requires in_time { now < 2 ^ 37 }
        requires in_range { AreSettings settings.now }
        ensures visit { spec.IsVisit self.new }
        ensures next { spec.IsNext settings.now now self.old given result self.new }
        ensures needs_more { result ≡ VisitWish.Listen → NeedsMore (spec.kept_by self.new) }
    {
        match given {
            VisitGiven::Begin => self.look(settings, 0, Place::Unknown, now),
            VisitGiven::Heard(octets) => self.hear(settings, octets.as_slice(), now),
            VisitGiven::Quiet => self.over(HttpEnd::Quiet),
            VisitGiven::End => self.at_end(),
            VisitGiven::Fault | VisitGiven::SayFault => self.over(HttpEnd::Fault),
            VisitGiven::Said => self.said(settings, now),
            VisitGiven::Answered(outcome) => self.answered(outcome),
        }
    }
}
