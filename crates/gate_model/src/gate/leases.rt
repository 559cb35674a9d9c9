//! Leases: what is taken, and given back.

ghost use Rattle.std.specs.Prelude.{◌≡◌, ℕ};
ghost use Rattle.gate_model.specs.Fold.{leases, leases_arrival};
ghost use Rattle.gate_model.specs.Gate.{model_of, Becomes, lease_under};
ghost use Rattle.gate_model.specs.Lawful.{IsFree};
ghost use Rattle.gate_model.specs.Numbers.{Has, Rise, with_change};

use crate::gate::links::{lower, raise};
use crate::{Arrival, Gate, Waiting};
use numbered_table::Table;

/// Puts another lease on a message, and gives the one that was.
fn put_lease(waiting: &mut Table<Waiting>, message: u64, lease: Option<u32>) -> Option<u32>
    requires rising { (end : ℕ) × Rise 1 end waiting.old.pairs }
    ensures was { result ≡ lease_under message waiting.old.pairs }
    ensures pairs { waiting.new.pairs ≡ with_change message (λ w. record w { lease = lease }) waiting.old.pairs }
{
    match waiting.get_mut(message) {
        Some(held) => {
            let was = held.lease;
            held.lease = lease;
            was
        }
        None => None,
    }
}

/// Puts another lease on an arrival.
fn put_arrival_lease(arrivals: &mut Table<Arrival>, arrival: u64, leased: bool)
    requires rising { (end : ℕ) × Rise 1 end arrivals.old.pairs }
    ensures { arrivals.new.pairs ≡ with_change arrival (λ a. record a { leased = leased }) arrivals.old.pairs }
{
    if let Some(held) = arrivals.get_mut(arrival) {
        held.leased = leased;
    }
}

impl Gate {
    /// A link takes a message that nobody has taken.
    pub(crate) fn take_message(&mut self, link: u32, message: u64)
        requires free { IsFree (model_of self.old) message }
        ensures { Becomes self.old self.new (leases message (Some link) (model_of self.old)) }
    {
        let _ = put_lease(&mut self.waiting, message, Some(link));
        raise(&mut self.flight, link);
    }

    /// A message is given back, and its link, where one has taken it, has one less in flight.
    pub(crate) fn return_message(&mut self, message: u64)
        requires held { Has self.old.waiting.pairs message }
        ensures { Becomes self.old self.new (leases message None (model_of self.old)) }
    {
        let was = put_lease(&mut self.waiting, message, None);
        lower(&mut self.flight, was);
    }

    /// An arrival is taken, or given back.
    pub(crate) fn lease_arrival(&mut self, arrival: u64, leased: bool)
        ensures { Becomes self.old self.new (leases_arrival arrival leased (model_of self.old)) }
    {
        put_arrival_lease(&mut self.arrivals, arrival, leased);
    }
}
