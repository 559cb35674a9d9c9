//! A visit looks at what it keeps.

ghost use Rattle.std.specs.Prelude.{◌≡◌, ◌<◌, ◌≤◌, ◌+◌, ◌^◌, ◌++◌, ℕ, [], drop, length, take, true};
ghost use Rattle.config_groups.specs.Ranges.{AreSettings};
ghost use Rattle.http_text.specs.Head.{IsWhole, NeedsMore, looked_at};
ghost use Rattle.http_text.specs.Place.{EndsAt};
ghost use Rattle.sendsms_http.specs.Visit as spec;
ghost use Rattle.sendsms_http.specs.VisitSteps as steps;

use super::{Phase, Visit, VisitWish};
use crate::reply::{closes, is_last};
use crate::{HttpEnd, asked};
use config_groups::Settings;
use http_text::{Answer, Head, HeadRead, Place, Spot, read_more};
use kn_base::{Memory, Octets};
use peer_pieces::drop_front;

impl Visit {
    // Octets came.
    pub(super) fn hear(&mut self, settings: &Settings, octets: &[u8], now: u64) -> VisitWish
        requires in_time { now < 2 ^ 37 }
        requires in_range { AreSettings settings.now }
        requires place { steps.IsListening self.old }
        requires some { 0 < length octets.now }
        requires within { self.old.taken + length octets.now ≤ self.old.budget }
        ensures looks { spec.LooksAt settings.now now (self.old.kept ++ octets.now) self.new result }
        ensures goes { steps.Goes (self.old.taken + length octets.now) self.old result self.new }
    {
        let before = self.kept.len();
        let place = self.place();
        self.taken += octets.len() as u64;
        match self.kept.extend_from_slice(octets) {
            Ok(()) => self.look(settings, before, place, now),
            Err(Memory) => self.refuse(Answer::OutOfMemory),
        }
    }

    // Where what it keeps ends, as far as it is known.
    fn place(&self) -> Place
        requires { steps.IsListening self.now }
        ensures { EndsAt result self.now.kept }
    {
        match self.phase {
            Phase::Listening { place } => place,
            _ => Place::Unknown,
        }
    }

    // Looks at what is kept, of which the first octets were looked at before and end at this place.
    pub(super) fn look(
        &mut self,
        settings: &Settings,
        before: usize,
        place: Place,
        now: u64,
    ) -> VisitWish
        requires in_time { now < 2 ^ 37 }
        requires in_range { AreSettings settings.now }
        requires seen { before ≤ length self.old.kept }
        requires place { EndsAt place (take before self.old.kept) }
        requires within { self.old.taken ≤ self.old.budget }
        ensures looks { spec.LooksAt settings.now now self.old.kept self.new result }
        ensures goes { steps.Goes self.old.taken self.old result self.new }
    {
        if self.kept.is_empty() {
            return self.listen(Place::Unknown);
        }
        match read_more(self.alloc, self.kept.as_slice(), before, place) {
            Ok((HeadRead::Whole { head, len }, _)) => self.ask(settings, &head, len, now),
            Ok((HeadRead::NeedMore, place)) => self.listen(place),
            Ok((HeadRead::Bad, _)) => self.refuse(Answer::BadRequest(Spot::Head)),
            Ok((HeadRead::TooLong { .. }, _)) => self.refuse(Answer::BadRequest(Spot::Head)),
            Err(Memory) => self.refuse(Answer::OutOfMemory),
        }
    }

    // A head of so many octets stands in front of what is kept.
    fn ask(&mut self, settings: &Settings, head: &Head, len: usize, now: u64) -> VisitWish
        requires in_time { now < 2 ^ 37 }
        requires in_range { AreSettings settings.now }
        requires whole { IsWhole (looked_at self.old.kept) head.now len }
        requires within { self.old.taken ≤ self.old.budget }
        ensures looks { spec.LooksAt settings.now now self.old.kept self.new result }
        ensures goes { steps.Goes self.old.taken self.old result self.new }
    {
        self.drop_front(len);
        let close = is_last(head);
        match asked(self.alloc, settings, head, now) {
            Ok(parts) => {
                self.phase = Phase::Submitting { close };
                VisitWish::Submit { time: now, parts }
            }
            Err(answer) => self.say(answer, closes(close, answer)),
        }
    }

    // Drops the first octets of those that are kept.
    fn drop_front(&mut self, len: usize)
        requires { len ≤ length self.old.kept }
        ensures { self.new ≡ record self.old { kept = drop len self.old.kept } }
    {
        drop_front(self.alloc, &mut self.kept, len);
    }

    // Listens for more, unless as many octets were given as may be.
    fn listen(&mut self, place: Place) -> VisitWish
        requires more { NeedsMore self.old.kept }
        requires place { EndsAt place self.old.kept }
        requires within { self.old.taken ≤ self.old.budget }
        ensures looks { (settings : Settings) (now : ℕ) → spec.LooksAt settings now self.old.kept self.new result }
        ensures goes { steps.Goes self.old.taken self.old result self.new }
    {
        if self.taken == self.budget {
            return self.over(HttpEnd::Budget { taken: self.taken });
        }
        self.phase = Phase::Listening { place };
        VisitWish::Listen
    }

    // Drops what is kept, and says an answer behind which the connection closes.
    pub(super) fn refuse(&mut self, answer: Answer) -> VisitWish
        ensures said { result ≡ VisitWish.Say answer true }
        ensures same { self.new ≡ record self.old { kept = []; phase = Phase.Saying true } }
    {
        self.kept = Octets::new(self.alloc);
        self.say(answer, true)
    }
}
