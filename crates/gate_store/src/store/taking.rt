//! The next message of a link, the next job, and the next arrival.

ghost use Rattle.std.specs.Prelude.{◌≡◌, ◌<◌, ◌^◌, true, false, Some};
ghost use Rattle.gate_model.specs.Gate.{HaveIds};
ghost use Rattle.gate_model.specs.Lawful.{is_expired};
ghost use Rattle.gate_model.specs.Routing.{next, next_arrival, next_job};
ghost use Rattle.gate_store.specs.Deeds.{Takes, TakesMessage, TakesNextArrival, TakesNextJob, TakesThisArrival, TakesThisJob};
ghost use Rattle.gate_store.specs.Store.{IsOpen, rules_in, state_in};

use crate::{Store, Taken};
use gate_entries::{Cause, Passing, Recorded, Rejected};
use gate_model::Refusal;
use kn_base::{Memory, Octets};
use sms_record::{Sms, copy_sms};
use store_disk::Disk;

impl<D: Disk> Store<D> {
    /// The next message of a link, which takes it, at a reading of the clock in Unix seconds.
    ///
    /// `None` exactly where no message waits that is free, due and goes by this link. A message whose validity has passed is rejected for that,
    /// with the refusals of `perform`, and none is handed out in its place. Else only `Memory` is answered, and no disk call is made.
    pub fn take_next(&mut self, link: u32, now: u64) -> Result<Option<Taken>, Refusal>
        requires kept { IsOpen D.meaning self.old }
        requires time { now < 2 ^ 37 }
        requires ids { HaveIds (rules_in self.old) }
        ensures { Takes D.meaning self.old link now result self.new }
    {
        let Some(message) = self.gate.next_for(link, now) else {
            return Ok(None);
        };
        if self.gate.is_expired(message, now) {
            self.give_up(link, message, now)
        } else {
            self.send(link, message, now)
        }
    }

    // Rejects a message whose validity has passed.
    fn give_up(&mut self, link: u32, message: u64, now: u64) -> Result<Option<Taken>, Refusal>
        requires kept { IsOpen D.meaning self.old }
        requires time { now < 2 ^ 37 }
        requires ids { HaveIds (rules_in self.old) }
        requires next { next (rules_in self.old) (state_in self.old) link now ≡ Some message }
        requires late { is_expired message now (state_in self.old) ≡ true }
        ensures { TakesMessage D.meaning self.old link now message result self.new }
    {
        let Ok(smsc) = Octets::from_slice(self.alloc, self.gate.link_id(link)) else {
            return Err(Refusal::Memory);
        };
        self.perform(Recorded::Rejected(Rejected {
            message,
            smsc,
            cause: Cause::Expired,
            time: now,
        }))?;
        Ok(Some(Taken::Expired { message }))
    }

    // Hands out a message, which the link takes.
    fn send(&mut self, link: u32, message: u64, now: u64) -> Result<Option<Taken>, Refusal>
        requires kept { IsOpen D.meaning self.old }
        requires time { now < 2 ^ 37 }
        requires next { next (rules_in self.old) (state_in self.old) link now ≡ Some message }
        requires fresh { is_expired message now (state_in self.old) ≡ false }
        ensures { TakesMessage D.meaning self.old link now message result self.new }
    {
        let Some(sms) = self.gate.sms(message) else {
            unreachable!();
        };
        let Ok(sms) = copy_sms(self.alloc, sms) else {
            return Err(Refusal::Memory);
        };
        self.pass(Passing::Took {
            link,
            message,
            time: now,
        });
        Ok(Some(Taken::Send { message, sms }))
    }

    /// The next job, which is taken: its number, its URL, and how often it was given back since the store was opened.
    ///
    /// `None` exactly where no job is free. It is the one that was given back least often, and of these the least number. `Memory`, and then
    /// nothing has changed. No disk call is made.
    pub fn take_job(&mut self) -> Result<Option<(u64, Octets, u32)>, Memory>
        requires kept { IsOpen D.meaning self.old }
        ensures { TakesNextJob D.meaning self.old result self.new }
    {
        match self.gate.next_job() {
            Some(job) => self.hand_out(job),
            None => Ok(None),
        }
    }

    // Hands out a job, which is taken.
    fn hand_out(&mut self, job: u64) -> Result<Option<(u64, Octets, u32)>, Memory>
        requires kept { IsOpen D.meaning self.old }
        requires next { next_job (state_in self.old) ≡ Some job }
        ensures { TakesThisJob D.meaning self.old job result self.new }
    {
        let Some(url) = self.gate.job(job) else {
            unreachable!();
        };
        let url = Octets::from_slice(self.alloc, url)?;
        let tries = self.gate.tries(job);
        self.pass(Passing::TookJob { job });
        Ok(Some((job, url, tries)))
    }

    /// The next arrival, which is taken: its number, and the message that came from a centre.
    ///
    /// `None` exactly where none is free. It is the least number of these. `Memory`, and then nothing has changed. No disk call is made.
    pub fn take_arrival(&mut self) -> Result<Option<(u64, Sms)>, Memory>
        requires kept { IsOpen D.meaning self.old }
        ensures { TakesNextArrival D.meaning self.old result self.new }
    {
        match self.gate.next_arrival() {
            Some(arrival) => self.hand_on(arrival),
            None => Ok(None),
        }
    }

    // Hands out an arrival, which is taken.
    fn hand_on(&mut self, arrival: u64) -> Result<Option<(u64, Sms)>, Memory>
        requires kept { IsOpen D.meaning self.old }
        requires next { next_arrival (state_in self.old) ≡ Some arrival }
        ensures { TakesThisArrival D.meaning self.old arrival result self.new }
    {
        let Some(sms) = self.gate.arrival(arrival) else {
            unreachable!();
        };
        let sms = copy_sms(self.alloc, sms)?;
        self.pass(Passing::TookArrival { arrival });
        Ok(Some((arrival, sms)))
    }
}
