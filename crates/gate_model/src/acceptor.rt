//! Where messages are handed in.

ghost use Rattle.std.specs.Prelude.{◌≡◌, ◌≢◌, ℕ, ◌≤◌, List, [], ◌∷◌, ◌++◌, IfOk, Err};
ghost use Rattle.kn_base.specs.Count.{Rose};
ghost use Rattle.gate_model.specs.Acceptor.{Deed, MayBeHanded};
ghost use Rattle.gate_model.specs.Reply.{IsAccepted};

use crate::{Refusal, Reply};
use sms_record::Sms;

/// A store that takes messages.
pub trait Acceptor {
    /// How many disk calls failed.
    ghost faults: { Self → ℕ };

    /// Some deeds, in order, lead from what the store was to what it is.
    ghost leads: { Self → List Deed → Self → Type 0 };

    /// Whether it may be handed a message. What may be once may be again, whatever was answered.
    ghost can_submit: { Self → Type 0 };

    /// Hands in the parts of one message, 1 to 5,000 that fit in one entry, at a reading of the clock in Unix seconds.
    ///
    /// `Accepted` where all of them are recorded. `NoRoute` where no link may carry one, `Full` where the queue has no room for
    /// them, `Memory` where there was none: then none is recorded. `Disk` where a disk call failed: then the count of faults
    /// rose, and whether they are recorded isn't known. With any other answer that count stands still. Behind each answer more may be
    /// handed in.
    fn submit(&mut self, parts: Vec<Sms>, time: u64) -> Result<Reply, Refusal>
        requires ready { can_submit self.old }
        requires fits { MayBeHanded parts.items time }
        ensures deed { leads self.old (record { parts = parts.items; time = time; outcome = result } ∷ []) self.new }
        ensures accepted { IfOk result IsAccepted }
        ensures disk { result ≡ Err Refusal.Disk → Rose (faults self.old) (faults self.new) }
        ensures spared { result ≢ Err Refusal.Disk → faults self.new ≡ faults self.old }
        ensures kept { faults self.old ≤ faults self.new }
        ensures ready { can_submit self.new };

    /// No deeds lead from a store to itself.
    ghost leads_nowhere: { (a : Self) → leads a [] a };

    /// Deeds lead on from where others led.
    ghost leads_on: { (a b c : Self) (xs ys : List Deed) → leads a xs b → leads b ys c → leads a (xs ++ ys) c };
}
