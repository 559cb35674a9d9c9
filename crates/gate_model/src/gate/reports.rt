//! What centres say of messages.

ghost use Rattle.std.specs.Prelude.{◌≡◌, ◌<◌, ◌+◌, true, [], is_some, IsTrue, IsSome, Some};
ghost use Rattle.dlr_table.specs.Reports.{spare};
ghost use Rattle.gate_entries.specs.declared.recorded.Recorded.TheVariants as entry;
ghost use Rattle.gate_model.specs.Fold.{counts_entry, acknowledges, ends, sms_of, rejects, hears, misses, first_under, closes, awaits, asked_by, is_awaited as is_to_be_awaited, is_last as is_last_kind};
ghost use Rattle.gate_model.specs.Gate.{model_of, Becomes, HasRoomFor};
ghost use Rattle.gate_model.specs.Lawful.{most_entries};
ghost use Rattle.gate_model.specs.Numbers.{Has};

use crate::gate::recording::MATCHED;
use crate::gate::rooms::is_awaited;
use crate::{Gate, Reply};
use dlr_table::Awaited;
use gate_entries::{Acked, Reported};
use kn_base::Octets;
use sms_record::{Kind, Sms};
use std::alloc::Global;

/// Whether no report of a kind is followed by another.
fn is_last(kind: Kind) -> bool
    ensures { result ≡ is_last_kind kind }
{
    match kind {
        Kind::Delivered | Kind::Undelivered => true,
        Kind::Buffered | Kind::Sent | Kind::Refused => false,
    }
}

/// A message without its body, which no report needs.
fn without_body(alloc: Global, sms: Sms) -> Sms
    ensures { result ≡ record sms { body = [] } }
{
    let mut sms = sms;
    sms.body = Octets::new(alloc);
    sms
}

impl Gate {
    /// A centre took a message.
    pub(crate) fn acknowledge(&mut self, acked: &Acked) -> Reply
        requires few { (model_of self.old).entries < most_entries }
        requires held { Has self.old.waiting.pairs acked.now.message }
        requires room { HasRoomFor self.old (entry.Acked acked.now) }
        ensures state { Becomes self.old self.new (counts_entry (acknowledges acked.now (model_of self.old))) }
        ensures reply { result ≡ Reply.Noted true }
    {
        let sms = self.take_out(acked.message);
        if let Some(sms) = sms {
            self.await_report(acked, sms);
        }
        MATCHED
    }

    /// A message that a centre took no longer waits, and is counted. It is handed out.
    fn take_out(&mut self, message: u64) -> Option<Sms>
        requires few { (model_of self.old).entries < most_entries }
        requires held { Has self.old.waiting.pairs message }
        ensures state { Becomes self.old self.new (counts_entry (record (ends message (model_of self.old)) { acked = (model_of self.old).acked + 1 })) }
        ensures sms { result ≡ sms_of message (model_of self.old) }
        ensures reports { self.new.reports ≡ self.old.reports }
    {
        let sms = self.end_message(message);
        self.counts.acked += 1;
        self.counts.entries += 1;
        sms
    }

    /// A message that its centre took is awaited, where it is to be.
    fn await_report(&mut self, acked: &Acked, sms: Sms)
        requires room { IsTrue (is_to_be_awaited acked.now.foreign sms) → 0 < spare self.old.reports acked.now.smsc acked.now.foreign }
        ensures { Becomes self.old self.new (awaits acked.now.smsc acked.now.foreign (asked_by acked.now (Some sms)) (model_of self.old)) }
    {
        if is_awaited(&acked.foreign, &sms) {
            let smsc = acked.smsc.as_slice();
            let foreign = acked.foreign.as_slice();
            let message = acked.message;
            let kept = without_body(self.alloc, sms);
            let _ = self
                .reports
                .add(smsc, foreign, Awaited { message, sms: kept });
        }
    }

    /// A message was given up.
    pub(crate) fn reject(&mut self, message: u64) -> Reply
        requires few { (model_of self.old).entries < most_entries }
        requires held { Has self.old.waiting.pairs message }
        ensures state { Becomes self.old self.new (counts_entry (rejects message (model_of self.old))) }
        ensures reply { result ≡ Reply.Noted true }
    {
        let _ = self.end_message(message);
        self.counts.rejected += 1;
        self.counts.entries += 1;
        MATCHED
    }

    /// A centre reported on a message: on the oldest under its key, where there is one.
    pub(crate) fn hear_report(&mut self, reported: &Reported) -> Reply
        requires few { (model_of self.old).entries < most_entries }
        ensures state { Becomes self.old self.new (counts_entry (hears reported.now (first_under reported.now (model_of self.old)) (model_of self.old))) }
        ensures reply { result ≡ Reply.Noted (is_some (first_under reported.now (model_of self.old))) }
    {
        if self.is_matched(reported) {
            self.hear_matched(reported);
            MATCHED
        } else {
            self.miss();
            Reply::Noted { matched: false }
        }
    }

    /// Whether a message is awaited under the key of a report.
    fn is_matched(&self, reported: &Reported) -> bool
        ensures { result ≡ is_some (first_under reported.now (model_of self.now)) }
    {
        let smsc = reported.smsc.as_slice();
        let foreign = reported.foreign.as_slice();
        self.reports.find(smsc, foreign).is_some()
    }

    /// A report belonged to no message.
    fn miss(&mut self)
        requires few { (model_of self.old).entries < most_entries }
        ensures { Becomes self.old self.new (counts_entry (misses (model_of self.old))) }
    {
        self.counts.unmatched += 1;
        self.counts.entries += 1;
    }

    /// A report belonged to a message.
    fn hear_matched(&mut self, reported: &Reported)
        requires few { (model_of self.old).entries < most_entries }
        requires some { IsSome (first_under reported.now (model_of self.old)) }
        ensures { Becomes self.old self.new (counts_entry (hears reported.now (first_under reported.now (model_of self.old)) (model_of self.old))) }
    {
        if is_last(reported.kind) {
            self.hear_last(reported);
        } else {
            self.count_entry();
        }
    }

    /// A report belonged to a message, and no other follows.
    fn hear_last(&mut self, reported: &Reported)
        requires few { (model_of self.old).entries < most_entries }
        requires some { IsSome (first_under reported.now (model_of self.old)) }
        ensures { Becomes self.old self.new (counts_entry (closes reported.now.smsc reported.now.foreign (model_of self.old))) }
    {
        self.close_report(reported);
        self.count_entry();
    }

    /// The oldest message under the key of a report is no longer awaited.
    fn close_report(&mut self, reported: &Reported)
        requires some { IsSome (first_under reported.now (model_of self.old)) }
        ensures { Becomes self.old self.new (closes reported.now.smsc reported.now.foreign (model_of self.old)) }
    {
        let smsc = reported.smsc.as_slice();
        let foreign = reported.foreign.as_slice();
        let _ = self.reports.close(smsc, foreign);
    }

    /// One more entry was recorded.
    fn count_entry(&mut self)
        requires few { (model_of self.old).entries < most_entries }
        ensures { Becomes self.old self.new (counts_entry (model_of self.old)) }
    {
        self.counts.entries += 1;
    }
}
