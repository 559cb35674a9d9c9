//! A visit answers, or ends.

ghost use Rattle.std.specs.Prelude.{◌≡◌, ◌<◌, ◌≤◌, ◌^◌, ℕ};
ghost use Rattle.config_groups.specs.Ranges.{AreSettings};
ghost use Rattle.http_text.specs.Head.{NeedsMore};
ghost use Rattle.sendsms_http.specs.Visit as spec;
ghost use Rattle.sendsms_http.specs.VisitSteps as steps;

use super::{Phase, Visit, VisitWish};
use crate::HttpEnd;
use crate::reply::{answer_of, closes};
use config_groups::Settings;
use gate_model::{Refusal, Reply};
use http_text::{Answer, Place, Spot};

impl Visit {
    // Says an answer.
    pub(super) fn say(&mut self, answer: Answer, close: bool) -> VisitWish
        ensures said { result ≡ VisitWish.Say answer close }
        ensures same { self.new ≡ record self.old { phase = Phase.Saying close } }
    {
        self.phase = Phase::Saying { close };
        VisitWish::Say { answer, close }
    }

    // Ends.
    pub(super) fn over(&mut self, end: HttpEnd) -> VisitWish
        ensures over { result ≡ VisitWish.Over end }
        ensures same { self.new ≡ record self.old { phase = Phase.Done } }
    {
        self.phase = Phase::Done;
        VisitWish::Over(end)
    }

    // Nothing more comes behind what is kept.
    pub(super) fn at_end(&mut self) -> VisitWish
        requires { NeedsMore self.old.kept }
        ensures ends { (settings : Settings) (now : ℕ) → spec.IsAtEnd settings now self.old.kept self.new result }
        ensures goes { steps.Goes self.old.taken self.old result self.new }
    {
        if self.kept.is_empty() {
            self.over(HttpEnd::End)
        } else {
            self.refuse(Answer::BadRequest(Spot::Head))
        }
    }

    // An answer was said whole.
    pub(super) fn said(&mut self, settings: &Settings, now: u64) -> VisitWish
        requires in_time { now < 2 ^ 37 }
        requires in_range { AreSettings settings.now }
        requires within { self.old.taken ≤ self.old.budget }
        ensures said { spec.IsSaid settings.now now self.old self.old.phase self.new result }
        ensures goes { steps.Goes self.old.taken self.old result self.new }
    {
        match self.phase {
            Phase::Saying { close: true } => self.over(HttpEnd::End),
            _ => self.look(settings, 0, Place::Unknown, now),
        }
    }

    // The store answered to the parts that were handed in.
    pub(super) fn answered(&mut self, outcome: Result<Reply, Refusal>) -> VisitWish
        requires { steps.IsSubmitting self.old }
        ensures answered { spec.IsAnswered self.old.phase outcome result }
        ensures kept { self.new.kept ≡ self.old.kept }
        ensures goes { steps.Goes self.old.taken self.old result self.new }
    {
        let close = match self.phase {
            Phase::Submitting { close } => close,
            _ => true,
        };
        let answer = answer_of(outcome);
        self.say(answer, closes(close, answer))
    }
}
