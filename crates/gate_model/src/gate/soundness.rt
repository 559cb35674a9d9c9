//! Whether an entry that a store kept suits what came before it.

ghost use Rattle.std.specs.Prelude.{◌≡◌, ◌&&◌, nat_lt};
ghost use Rattle.std.specs.List.{list_all};
ghost use Rattle.gate_model.specs.Gate.{model_of};
ghost use Rattle.gate_model.specs.Lawful as spec;
ghost use Rattle.gate_model.specs.Numbers.{is_held};
ghost use Rattle.gate_model.specs.Lawful.{most_entries};

use crate::gate::checking::MOST_ENTRIES;
use crate::{Gate, Waiting};
use gate_entries::{Cause, Recorded};
use kn_base::CLOCK_END;

fn is_time(time: u64) -> bool
    ensures { result ≡ spec.is_time time }
{
    time < CLOCK_END
}

/// Whether a message is no longer worth sending, if an end was asked for.
fn has_expired(time: u64, waiting: &Waiting) -> bool
    ensures { result ≡ spec.has_expired time waiting.now }
{
    let sms = &waiting.sms;
    sms.validity >= 1 && sms.time <= time && 60 * u64::from(sms.validity) <= time - sms.time
}

/// Whether no number stands twice.
fn are_distinct(numbers: &[u64]) -> bool
    ensures { result ≡ spec.are_distinct numbers.now }
{
    match numbers {
        [] => true,
        [first, rest @ ..] => !rest.contains(first) && are_distinct(rest),
    }
}

impl Gate {
    /// Whether an entry suits what the gate holds, and finds room among those that are ever recorded. It takes no memory.
    pub fn suits(&self, entry: &Recorded) -> bool
        ensures { result ≡ (spec.suits (model_of self.now) entry.now && nat_lt (model_of self.now).entries most_entries) }
    {
        self.suits_state(entry) && self.counts.entries < MOST_ENTRIES
    }

    /// Whether a message waits that is no longer worth sending at a reading of the clock: an end was asked for, and it has come. It
    /// takes no memory.
    pub fn is_expired(&self, message: u64, time: u64) -> bool
        ensures { result ≡ spec.is_expired message time (model_of self.now) }
    {
        self.may_end(message, time, Cause::Expired)
    }

    /// Whether an entry suits what the gate holds.
    fn suits_state(&self, entry: &Recorded) -> bool
        ensures { result ≡ spec.suits (model_of self.now) entry.now }
    {
        match entry {
            Recorded::Accept(accept) => is_time(accept.time),
            Recorded::Acked(acked) => self.holds_message(acked.message) && is_time(acked.time),
            Recorded::Rejected(rejected) => {
                self.may_end(rejected.message, rejected.time, rejected.cause)
                    && is_time(rejected.time)
            }
            Recorded::Reported(reported) => is_time(reported.time),
            Recorded::Arrived(arrived) => arrived.sms.smsc.as_slice() == arrived.smsc.as_slice(),
            Recorded::Answered(answered) => {
                self.are_arrivals(answered.arrivals.as_slice()) && is_time(answered.time)
            }
            _ => self.holds_job(entry.ended_job()),
        }
    }

    fn holds_message(&self, message: u64) -> bool
        ensures { result ≡ is_held message (model_of self.now).waiting }
    {
        self.waiting.get(message).is_some()
    }

    /// Whether there is a job, and it is held.
    fn holds_job(&self, job: Option<u64>) -> bool
        ensures { result ≡ spec.holds_job (model_of self.now) job }
    {
        match job {
            Some(job) => self.jobs.get(job).is_some(),
            None => false,
        }
    }

    fn holds_arrival(&self, arrival: u64) -> bool
        ensures { result ≡ is_held arrival (model_of self.now).arrivals }
    {
        self.arrivals.get(arrival).is_some()
    }

    /// Whether a message waits, and the cause of its end has come.
    fn may_end(&self, message: u64, time: u64, cause: Cause) -> bool
        ensures { result ≡ spec.may_end (model_of self.now) message time cause }
    {
        match (cause, self.waiting.get(message)) {
            (_, None) => false,
            (Cause::Centre(_), Some(_)) => true,
            (Cause::Expired, Some(waiting)) => has_expired(time, waiting),
        }
    }

    /// Whether these are distinct arrivals that are held.
    fn are_arrivals(&self, arrivals: &[u64]) -> bool
        ensures { result ≡ spec.are_arrivals (model_of self.now) arrivals.now }
    {
        self.holds_all(arrivals) && are_distinct(arrivals)
    }

    fn holds_all(&self, arrivals: &[u64]) -> bool
        ensures { result ≡ list_all (λ arrival. is_held arrival (model_of self.now).arrivals) arrivals.now }
    {
        arrivals.iter().all(|arrival| self.holds_arrival(*arrival))
    }
}
