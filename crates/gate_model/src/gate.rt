//! The gate: what a store of messages holds, in memory.

ghost use Rattle.std.specs.Prelude.{◌≡◌, ◌<◌, ◌^◌, false, length, replicate, IfOk, IfErr, option_copied};
ghost use Rattle.gate_model.specs.Whole.{state_of, IsWhole, IsWhole-prop};

mod checking;
mod jobs;
mod leases;
mod links;
mod messages;
mod next;
mod passing;
mod recording;
mod reports;
mod rooms;
mod soundness;

use crate::counts::Counts;
use crate::{Arrival, Job, Totals, Waiting};
use dlr_table::Reports;
use kn_base::Memory;
use links::links_down;
use numbered_table::Table;
use route_rules::Rules;
use sms_record::Sms;
use std::alloc::Global;

/// What a store of messages holds, in memory. Contracts see the state that it holds (`model_of`) and its rules.
#[derive(Drop)]
pub struct Gate {
    alloc: Global,
    rules: Rules,
    /// Of each link whether it is up.
    up: Vec<bool>,
    /// Of each link how many messages it has taken.
    flight: Vec<u64>,
    waiting: Table<Waiting>,
    arrivals: Table<Arrival>,
    jobs: Table<Job>,
    reports: Reports,
    counts: Counts,
    ghost whole: { IsWhole rules flight.items (state_of waiting.pairs arrivals.pairs jobs.pairs reports up.items counts) } by { IsWhole-prop rules flight.items (state_of waiting.pairs arrivals.pairs jobs.pairs reports up.items counts) },
}

impl Gate {
    ghost use Rattle.gate_model.specs.Fold.{sms_of};
    ghost use Rattle.gate_model.specs.Gate.{model_of, rules_of, is_leased, arrival_of, id_of, url_of, returns_of};
    ghost use Rattle.gate_model.specs.State.{empty, totals_of};

    /// The gate of a store in which nothing has happened, all links down. The rules stay for its life; after `Memory` they are
    /// given back.
    pub fn new(alloc: Global, rules: Rules) -> Result<Gate, (Rules, Memory)>
        requires { length rules.links < 2 ^ 32 }
        ensures rules { IfOk result (λ gate. rules_of gate ≡ rules) }
        ensures state { IfOk result (λ gate. model_of gate ≡ empty (length rules.links)) }
        ensures err { IfErr result (λ back. back.0 ≡ rules) }
    {
        match links_down(alloc, rules.links.len()) {
            Ok((up, flight)) => {
                let waiting = Table::new(alloc);
                let arrivals = Table::new(alloc);
                let jobs = Table::new(alloc);
                let reports = Reports::new(alloc);
                Ok(Gate {
                    alloc,
                    rules,
                    up,
                    flight,
                    waiting,
                    arrivals,
                    jobs,
                    reports,
                    counts: Counts::NONE,
                })
            }
            Err(Memory) => Err((rules, Memory)),
        }
    }

    /// The rules of its links.
    pub fn rules(&self) -> &Rules
        ensures { result.now ≡ rules_of self.now }
    {
        &self.rules
    }

    /// The SMSC id of a link, empty where there is none.
    pub fn link_id(&self, link: u32) -> &[u8]
        ensures { result.now ≡ id_of link (rules_of self.now) }
    {
        match self.rules.links.as_slice().get(link as usize) {
            Some(rule) => rule.id.as_slice(),
            None => &[],
        }
    }

    /// What it counts.
    pub fn totals(&self) -> Totals
        ensures { result ≡ totals_of (model_of self.now) }
    {
        Totals {
            accepted: self.counts.accepted,
            acked: self.counts.acked,
            rejected: self.counts.rejected,
            waiting: self.waiting.len() as u64,
            awaited: self.reports.count() as u64,
            unmatched: self.counts.unmatched,
            jobs: self.jobs.len() as u64,
            called: self.counts.called,
            dropped: self.counts.dropped,
            arrived: self.counts.arrived,
            arrivals: self.arrivals.len() as u64,
            entries: self.counts.entries,
        }
    }

    /// A message that waits.
    pub fn sms(&self, message: u64) -> Option<&Sms>
        ensures { option_copied result ≡ sms_of message (model_of self.now) }
    {
        match self.waiting.get(message) {
            Some(waiting) => Some(&waiting.sms),
            None => None,
        }
    }

    /// A message from a centre that is still to be dealt with.
    pub fn arrival(&self, arrival: u64) -> Option<&Sms>
        ensures { option_copied result ≡ arrival_of arrival (model_of self.now) }
    {
        match self.arrivals.get(arrival) {
            Some(held) => Some(&held.sms),
            None => None,
        }
    }

    /// The URL of a job that is still to be called.
    pub fn job(&self, job: u64) -> Option<&[u8]>
        ensures { option_copied result ≡ url_of job (model_of self.now) }
    {
        match self.jobs.get(job) {
            Some(held) => Some(held.url.as_slice()),
            None => None,
        }
    }

    /// Whether a link has taken a message.
    pub fn leased(&self, message: u64) -> bool
        ensures { result ≡ is_leased message (model_of self.now) }
    {
        match self.waiting.get(message) {
            Some(waiting) => waiting.lease.is_some(),
            None => false,
        }
    }

    /// How often a job was given back since the store was opened. One that isn't held never was.
    pub fn tries(&self, job: u64) -> u32
        ensures { result ≡ returns_of job (model_of self.now) }
    {
        match self.jobs.get(job) {
            Some(held) => held.returns,
            None => 0,
        }
    }
}
