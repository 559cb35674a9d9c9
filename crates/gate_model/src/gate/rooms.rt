//! The memory that an entry needs, and the URL that it calls.

ghost use Rattle.std.specs.Prelude.{◌≡◌, ◌≤◌, IfOk, IfErr, IfSome, OnOk};
ghost use Rattle.gate_model.specs.Fold.{url_in, is_awaited as is_to_be_awaited};
ghost use Rattle.gate_model.specs.Gate.{model_of, birth_of, entry_of, HasRoom, HasRoomFor, KeepsAll, is_awaited_in};
ghost use Rattle.gate_model.specs.Lawful.{IsTimed};

use crate::{Gate, Ready};
use gate_entries::{Acked, Recorded, Rejected, Reported};
use kn_base::{Memory, Octets};
use report_urls::{acked_url, asks_centre, rejected_url, reported_url};
use sms_record::Sms;

/// Whether a report is awaited of a message that its centre took.
pub(crate) fn is_awaited(foreign: &Octets, sms: &Sms) -> bool
    ensures { result ≡ is_to_be_awaited foreign.now sms.now }
{
    !foreign.as_slice().is_empty() && asks_centre(sms)
}

impl Gate {
    /// Takes all memory that an entry needs, and fills the URL that it calls, in the store of this birth. What the gate holds stays; after
    /// `Memory` the entry is given back. The entry's time is a reading of the clock.
    pub fn prepare(&mut self, entry: Recorded, birth: u64) -> Result<Ready, (Recorded, Memory)>
        requires timed { IsTimed entry }
        ensures entry { IfOk result (λ ready. entry_of ready ≡ entry) }
        ensures birth { IfOk result (λ ready. birth_of ready ≡ birth) }
        ensures room { IfOk result (λ ready. HasRoom self.new ready) }
        ensures state { KeepsAll self.old self.new }
        ensures err { IfErr result (λ back. back.0 ≡ entry) }
    {
        match self.make_room(&entry, birth) {
            Ok(url) => Ok(Ready { entry, birth, url }),
            Err(Memory) => Err((entry, Memory)),
        }
    }

    /// Fills the URL that an entry calls, and takes the memory that the entry and the URL need.
    fn make_room(&mut self, entry: &Recorded, birth: u64) -> Result<Option<Octets>, Memory>
        requires { IsTimed entry.now }
        ensures url { IfOk result (λ url. url ≡ url_in birth (model_of self.old) entry.now) }
        ensures job { IfOk result (λ url. IfSome url (λ _. 1 ≤ self.new.jobs.room)) }
        ensures room { OnOk result (HasRoomFor self.new entry.now) }
        ensures state { KeepsAll self.old self.new }
    {
        let url = self.url_of(entry, birth)?;
        self.reserve_job(&url)?;
        self.reserve(entry)?;
        Ok(url)
    }

    /// The URL that an entry calls.
    fn url_of(&self, entry: &Recorded, birth: u64) -> Result<Option<Octets>, Memory>
        requires { IsTimed entry.now }
        ensures { IfOk result (λ url. url ≡ url_in birth (model_of self.now) entry.now) }
    {
        match entry {
            Recorded::Acked(acked) => self.url_of_acked(acked, birth),
            Recorded::Rejected(rejected) => self.url_of_rejected(rejected, birth),
            Recorded::Reported(reported) => self.url_of_reported(reported, birth),
            _ => Ok(None),
        }
    }

    fn url_of_acked(&self, acked: &Acked, birth: u64) -> Result<Option<Octets>, Memory>
        requires { IsTimed (Recorded.Acked acked.now) }
        ensures { IfOk result (λ url. url ≡ url_in birth (model_of self.now) (Recorded.Acked acked.now)) }
    {
        match self.sms(acked.message) {
            Some(sms) => acked_url(self.alloc, birth, acked, sms),
            None => Ok(None),
        }
    }

    fn url_of_rejected(&self, rejected: &Rejected, birth: u64) -> Result<Option<Octets>, Memory>
        requires { IsTimed (Recorded.Rejected rejected.now) }
        ensures { IfOk result (λ url. url ≡ url_in birth (model_of self.now) (Recorded.Rejected rejected.now)) }
    {
        match self.sms(rejected.message) {
            Some(sms) => rejected_url(self.alloc, birth, rejected, sms),
            None => Ok(None),
        }
    }

    fn url_of_reported(&self, reported: &Reported, birth: u64) -> Result<Option<Octets>, Memory>
        requires { IsTimed (Recorded.Reported reported.now) }
        ensures { IfOk result (λ url. url ≡ url_in birth (model_of self.now) (Recorded.Reported reported.now)) }
    {
        let smsc = reported.smsc.as_slice();
        let foreign = reported.foreign.as_slice();
        match self.reports.find(smsc, foreign) {
            Some(awaited) => {
                reported_url(self.alloc, birth, reported, awaited.message, &awaited.sms)
            }
            None => Ok(None),
        }
    }

    /// Takes the memory for a job, where a URL is called.
    fn reserve_job(&mut self, url: &Option<Octets>) -> Result<(), Memory>
        ensures job { OnOk result (IfSome url.now (λ _. 1 ≤ self.new.jobs.room)) }
        ensures state { KeepsAll self.old self.new }
    {
        match url {
            Some(_) => self.jobs.reserve(1),
            None => Ok(()),
        }
    }

    /// Takes the memory that an entry needs.
    fn reserve(&mut self, entry: &Recorded) -> Result<(), Memory>
        ensures room { OnOk result (HasRoomFor self.new entry.now) }
        ensures state { KeepsAll self.old self.new }
        ensures jobs { self.new.jobs.room ≡ self.old.jobs.room }
    {
        match entry {
            Recorded::Accept(accept) => self.waiting.reserve(accept.parts.len()),
            Recorded::Answered(answered) => self.waiting.reserve(answered.parts.len()),
            Recorded::Arrived(_) => self.arrivals.reserve(1),
            Recorded::Acked(acked) => self.reserve_report(acked),
            _ => Ok(()),
        }
    }

    /// Takes the memory for a message that its centre took, where a report of it is awaited.
    fn reserve_report(&mut self, acked: &Acked) -> Result<(), Memory>
        ensures room { OnOk result (HasRoomFor self.new (Recorded.Acked acked.now)) }
        ensures state { KeepsAll self.old self.new }
        ensures jobs { self.new.jobs.room ≡ self.old.jobs.room }
    {
        if self.is_report_awaited(acked) {
            let smsc = acked.smsc.as_slice();
            let foreign = acked.foreign.as_slice();
            self.reports.reserve(smsc, foreign)
        } else {
            Ok(())
        }
    }

    /// Whether a report is awaited of a message that its centre took.
    fn is_report_awaited(&self, acked: &Acked) -> bool
        ensures { result ≡ is_awaited_in acked.now (model_of self.now) }
    {
        match self.sms(acked.message) {
            Some(sms) => is_awaited(&acked.foreign, sms),
            None => false,
        }
    }
}
