//! Entries that are recorded.

ghost use Rattle.std.specs.Prelude.{◌≡◌, ◌<◌, ◌≤◌, ◌+◌, true, length};
ghost use Rattle.gate_entries.specs.Limits.{most_messages};
ghost use Rattle.gate_model.specs.Fold.{recorded, does, moves, counts_entry, accepts, answers, arrives};
ghost use Rattle.gate_model.specs.Gate.{model_of, rules_of, birth_of, entry_of, Becomes, HasRoom, HasRoomFor};
ghost use Rattle.gate_model.specs.Lawful.{IsSound, most_entries};
ghost use Rattle.gate_model.specs.Replies.{reply_to, is_queued as queued_first};

use crate::gate::messages::{end_all, put_messages};
use crate::{Arrival, Gate, Ready, Reply};
use gate_entries::{Answered, Recorded};
use kn_base::Items;
use route_rules::assign;
use sms_record::Sms;

/// What is replied to an entry that belongs to a message.
pub(crate) const MATCHED: Reply = Reply::Noted { matched: true };

impl Gate {
    /// Does an entry that is recorded, and says what is replied to it. It takes no memory.
    pub fn apply(&mut self, ready: Ready) -> Reply
        requires room { HasRoom self.old ready }
        requires few { (model_of self.old).entries < most_entries }
        requires sound { IsSound (model_of self.old) (entry_of ready) }
        ensures rules { rules_of self.new ≡ rules_of self.old }
        ensures state { model_of self.new ≡ does (birth_of ready) (model_of self.old) (recorded (entry_of ready)) }
        ensures reply { result ≡ reply_to (rules_of self.old) (model_of self.old) (entry_of ready) }
    {
        let Ready {
            entry,
            birth: _,
            url,
        } = ready;
        let reply = self.move_by(entry);
        self.call(url);
        reply
    }

    /// Does an entry that is recorded, but for the URL that it calls.
    fn move_by(&mut self, entry: Recorded) -> Reply
        requires room { HasRoomFor self.old entry }
        requires few { (model_of self.old).entries < most_entries }
        requires sound { IsSound (model_of self.old) entry }
        ensures state { Becomes self.old self.new (counts_entry (moves entry (model_of self.old))) }
        ensures reply { result ≡ reply_to (rules_of self.old) (model_of self.old) entry }
    {
        match entry {
            Recorded::Accept(accept) => {
                let queued = self.is_queued(accept.parts.as_slice());
                self.accept(accept.parts, queued)
            }
            Recorded::Answered(answered) => {
                let queued = self.is_queued(answered.parts.as_slice());
                self.answer(answered, queued)
            }
            Recorded::Arrived(arrived) => self.arrive(arrived.sms),
            Recorded::Acked(acked) => self.acknowledge(&acked),
            Recorded::Rejected(rejected) => self.reject(rejected.message),
            Recorded::Reported(reported) => self.hear_report(&reported),
            Recorded::Called(called) => self.end_called(called.job),
            Recorded::CallDropped(dropped) => self.end_dropped(dropped.job),
        }
    }

    /// Whether there is a first message that no link that is up suits.
    fn is_queued(&self, parts: &[Sms]) -> bool
        ensures { result ≡ queued_first (rules_of self.now) (model_of self.now) parts.now }
    {
        match parts {
            [] => false,
            [first, ..] => assign(&self.rules, &self.up, &self.flight, first).is_none(),
        }
    }

    /// Messages were accepted.
    fn accept(&mut self, parts: Items<Sms>, queued: bool) -> Reply
        requires room { length parts ≤ self.old.waiting.room }
        requires few { (model_of self.old).entries < most_entries }
        requires short { length parts ≤ most_messages }
        ensures state { Becomes self.old self.new (counts_entry (accepts parts (model_of self.old))) }
        ensures reply { result ≡ Reply.Accepted ((model_of self.old).last_message + 1) (length parts) queued }
    {
        let first = self.counts.last_message + 1;
        let count = parts.len();
        put_messages(&mut self.waiting, first, parts.into_vec());
        self.counts.last_message += count as u64;
        self.counts.accepted += count as u64;
        self.counts.entries += 1;
        Reply::Accepted {
            first,
            count: count as u32,
            queued,
        }
    }

    /// Messages from centres were dealt with, and answered by these.
    fn answer(&mut self, answered: Answered, queued: bool) -> Reply
        requires room { length answered.parts ≤ self.old.waiting.room }
        requires few { (model_of self.old).entries < most_entries }
        requires short { length answered.parts ≤ most_messages }
        ensures state { Becomes self.old self.new (counts_entry (accepts answered.parts (answers answered.arrivals (model_of self.old)))) }
        ensures reply { result ≡ Reply.Accepted ((model_of self.old).last_message + 1) (length answered.parts) queued }
    {
        self.end_arrivals(answered.arrivals.as_slice());
        self.accept(answered.parts, queued)
    }

    /// Messages from centres were dealt with.
    fn end_arrivals(&mut self, arrivals: &[u64])
        ensures state { Becomes self.old self.new (answers arrivals.now (model_of self.old)) }
        ensures room { self.new.waiting.room ≡ self.old.waiting.room }
    {
        end_all(&mut self.arrivals, arrivals);
    }

    /// A message came from a centre.
    fn arrive(&mut self, sms: Sms) -> Reply
        requires room { 1 ≤ self.old.arrivals.room }
        requires few { (model_of self.old).entries < most_entries }
        ensures state { Becomes self.old self.new (counts_entry (arrives sms (model_of self.old))) }
        ensures reply { result ≡ Reply.Noted true }
    {
        let number = self.counts.last_arrival + 1;
        self.arrivals.push(number, Arrival { sms, leased: false });
        self.counts.last_arrival = number;
        self.counts.arrived += 1;
        self.counts.entries += 1;
        MATCHED
    }
}
