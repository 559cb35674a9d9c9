//! What comes next.

ghost use Rattle.std.specs.Prelude.{◌≡◌, ◌<◌, length, find, fold, option_map, None, Some};
ghost use Rattle.numbered_table.specs.Rows.{pairs_of};
ghost use Rattle.gate_model.specs.Gate.{model_of, rules_of};
ghost use Rattle.gate_model.specs.NextSteps.{offers, is_free, better as better_row};
ghost use Rattle.gate_model.specs.Routing.{may_take as may_go, goes_by, next, next_arrival, next_job, is_due};

use crate::{Arrival, Gate, Job, Waiting};
use numbered_table::Row;
use route_rules::assign;
use sms_record::Sms;

/// Whether a message may be sent at a reading of the clock.
fn is_due_at(sms: &Sms, now: u64) -> bool
    ensures { result ≡ is_due sms.now now }
{
    sms.time <= now && 60 * u64::from(sms.deferred) <= now - sms.time
}

/// Whether nobody has taken the arrival of a place, where there is one.
fn is_free_at(row: &Row<Arrival>) -> bool
    ensures { result ≡ is_free row.now }
{
    match &row.value {
        Some(arrival) => !arrival.leased,
        None => false,
    }
}

/// The number of the first place whose arrival nobody has taken.
fn first_free(rows: &[Row<Arrival>]) -> Option<u64>
    ensures { result ≡ option_map (λ row. row.number) (find is_free rows.now) }
{
    rows.iter()
        .find(|row| is_free_at(row))
        .map(|row| row.number)
}

/// Of a job, by its number and how often it was given back, and the one of a place, the one that was given back less often, and the first
/// where both were as often. One that somebody has taken doesn't count.
fn better(best: Option<(u64, u32)>, row: &Row<Job>) -> Option<(u64, u32)>
    ensures { result ≡ better_row best row.now }
{
    match &row.value {
        None => best,
        Some(job) if job.leased => best,
        Some(job) => match best {
            Some((_, returns)) if returns <= job.returns => best,
            _ => Some((row.number, job.returns)),
        },
    }
}

/// The number of the place whose job nobody has taken and that was given back least often.
fn least_returned(rows: &[Row<Job>]) -> Option<u64>
    ensures { result ≡ option_map (λ best. best.0) (fold better_row None rows.now) }
{
    let mut best = None;
    for row in rows {
        best = better(best, row);
    }
    match best {
        Some((number, _)) => Some(number),
        None => None,
    }
}

impl Gate {
    /// The message that a link takes next: the least number of those that wait, that no link has taken, that may be sent by now, and
    /// that go by this link. `None` exactly where there is none. It takes no memory.
    pub fn next_for(&self, link: u32, now: u64) -> Option<u64>
        ensures { result ≡ next (rules_of self.now) (model_of self.now) link now }
    {
        self.first_offered(self.waiting.rows(), link, now)
    }

    /// The arrival that is dealt with next: the least number of those that nobody has taken. `None` exactly where there is none.
    /// It takes no memory.
    pub fn next_arrival(&self) -> Option<u64>
        ensures { result ≡ next_arrival (model_of self.now) }
    {
        first_free(self.arrivals.rows())
    }

    /// The job that is called next: of those that nobody has taken, the one that was given back least often, and of these the least number.
    /// `None` exactly where there is none. It takes no memory.
    pub fn next_job(&self) -> Option<u64>
        ensures { result ≡ next_job (model_of self.now) }
    {
        least_returned(self.jobs.rows())
    }

    /// The number of the first place whose message a link may take.
    fn first_offered(&self, rows: &[Row<Waiting>], link: u32, now: u64) -> Option<u64>
        ensures { result ≡ option_map (λ row. row.number) (find (offers (rules_of self.now) (model_of self.now) link now) rows.now) }
    {
        rows.iter()
            .find(|row| self.offers_at(row, link, now))
            .map(|row| row.number)
    }

    /// Whether a link may take the message of a place, where there is one.
    fn offers_at(&self, row: &Row<Waiting>, link: u32, now: u64) -> bool
        ensures { result ≡ offers (rules_of self.now) (model_of self.now) link now row.now }
    {
        match &row.value {
            Some(waiting) => self.may_take(waiting, link, now),
            None => false,
        }
    }

    /// Whether a link may take a message.
    fn may_take(&self, waiting: &Waiting, link: u32, now: u64) -> bool
        ensures { result ≡ may_go (rules_of self.now) (model_of self.now) link now waiting.now }
    {
        waiting.lease.is_none() && is_due_at(&waiting.sms, now) && self.goes_by(&waiting.sms, link)
    }

    /// Whether a message goes by a link.
    fn goes_by(&self, sms: &Sms, link: u32) -> bool
        ensures { result ≡ goes_by (rules_of self.now) (model_of self.now) sms.now link }
    {
        match assign(&self.rules, &self.up, &self.flight, sms) {
            Some(other) => other == link,
            None => false,
        }
    }
}
