//! URLs that are to be called.

ghost use Rattle.std.specs.Prelude.{◌≡◌, ℕ, ◌+◌, ◌<◌, ◌≤◌, true, false, min, IfSome};
ghost use Rattle.gate_model.specs.Fold.{calls, counts_entry, ends_job, takes_job, returns_job, most_returns};
ghost use Rattle.gate_model.specs.Gate.{model_of, rules_of, Becomes};
ghost use Rattle.gate_model.specs.Lawful.{most_entries};
ghost use Rattle.gate_model.specs.Numbers.{Rise, with_change};

use crate::gate::recording::MATCHED;
use crate::{Gate, Job, Reply};
use kn_base::Octets;
use numbered_table::Table;

/// Marks a job as taken.
fn put_taken(jobs: &mut Table<Job>, job: u64)
    requires rising { (end : ℕ) × Rise 1 end jobs.old.pairs }
    ensures pairs { jobs.new.pairs ≡ with_change job (λ j. record j { leased = true }) jobs.old.pairs }
    ensures room { jobs.new.room ≡ jobs.old.room }
{
    if let Some(held) = jobs.get_mut(job) {
        held.leased = true;
    }
}

/// Marks a job as given back, once more.
fn put_returned(jobs: &mut Table<Job>, job: u64)
    requires rising { (end : ℕ) × Rise 1 end jobs.old.pairs }
    ensures pairs { jobs.new.pairs ≡ with_change job (λ j. record j { leased = false; returns = min (j.returns + 1) most_returns }) jobs.old.pairs }
    ensures room { jobs.new.room ≡ jobs.old.room }
{
    if let Some(held) = jobs.get_mut(job) {
        held.leased = false;
        held.returns = held.returns.saturating_add(1);
    }
}

impl Gate {
    /// A URL, where there is one, is to be called. It takes no memory.
    pub(crate) fn call(&mut self, url: Option<Octets>)
        requires room { IfSome url (λ _. 1 ≤ self.old.jobs.room) }
        requires counted { (model_of self.old).last_job < (model_of self.old).entries }
        ensures rules { rules_of self.new ≡ rules_of self.old }
        ensures state { model_of self.new ≡ calls url (model_of self.old) }
    {
        if let Some(url) = url {
            let number = self.counts.last_job + 1;
            self.jobs.push(
                number,
                Job {
                    url,
                    leased: false,
                    returns: 0,
                },
            );
            self.counts.last_job = number;
        }
    }

    /// The URL of a job was called.
    pub(crate) fn end_called(&mut self, job: u64) -> Reply
        requires few { (model_of self.old).entries < most_entries }
        ensures state { Becomes self.old self.new (counts_entry (record (ends_job job (model_of self.old)) { called = (model_of self.old).called + 1 })) }
        ensures reply { result ≡ Reply.Noted true }
    {
        self.end_job(job);
        self.counts.called += 1;
        self.counts.entries += 1;
        MATCHED
    }

    /// The URL of a job won't be called.
    pub(crate) fn end_dropped(&mut self, job: u64) -> Reply
        requires few { (model_of self.old).entries < most_entries }
        ensures state { Becomes self.old self.new (counts_entry (record (ends_job job (model_of self.old)) { dropped = (model_of self.old).dropped + 1 })) }
        ensures reply { result ≡ Reply.Noted true }
    {
        self.end_job(job);
        self.counts.dropped += 1;
        self.counts.entries += 1;
        MATCHED
    }

    /// A job is done with.
    fn end_job(&mut self, job: u64)
        ensures { Becomes self.old self.new (ends_job job (model_of self.old)) }
    {
        let _ = self.jobs.end(job);
    }

    /// A job is taken.
    pub(crate) fn take_job(&mut self, job: u64)
        ensures { Becomes self.old self.new (takes_job job (model_of self.old)) }
    {
        put_taken(&mut self.jobs, job);
    }

    /// A job is given back.
    pub(crate) fn return_job(&mut self, job: u64)
        ensures { Becomes self.old self.new (returns_job job (model_of self.old)) }
    {
        put_returned(&mut self.jobs, job);
    }
}
