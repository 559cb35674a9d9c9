//! Entries that pass.

ghost use Rattle.std.specs.Prelude.{◌≡◌, slice_set};
ghost use Rattle.gate_model.specs.Fold.{passes};
ghost use Rattle.gate_model.specs.Gate.{model_of, rules_of, Becomes};
ghost use Rattle.gate_model.specs.Lawful.{MayPass};

use crate::Gate;
use crate::gate::links::set_up;
use gate_entries::Passing;

impl Gate {
    /// Does an entry that isn't recorded. It takes no memory.
    pub fn pass(&mut self, entry: Passing)
        requires lawful { MayPass (rules_of self.old) (model_of self.old) entry }
        ensures rules { rules_of self.new ≡ rules_of self.old }
        ensures state { model_of self.new ≡ passes entry (model_of self.old) }
    {
        match entry {
            Passing::Up { link } => self.set_link(link, true),
            Passing::Down { link } => self.set_link(link, false),
            Passing::Took { link, message, .. } => self.take_message(link, message),
            Passing::Returned { message } => self.return_message(message),
            Passing::TookArrival { arrival } => self.lease_arrival(arrival, true),
            Passing::ReturnedArrival { arrival } => self.lease_arrival(arrival, false),
            Passing::TookJob { job } => self.take_job(job),
            Passing::ReturnedJob { job } => self.return_job(job),
        }
    }

    /// A link is up, or down.
    fn set_link(&mut self, link: u32, is_up: bool)
        ensures { Becomes self.old self.new (record (model_of self.old) { up = slice_set (model_of self.old).up link is_up }) }
    {
        set_up(&mut self.up, link, is_up);
    }
}
