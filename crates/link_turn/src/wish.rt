//! What a session wishes.

use crate::EndCause;
use gate_entries::{Passing, Recorded};
use kn_base::Octets;

/// What a session wishes to be done next.
#[derive(Drop)]
pub enum Wish {
    /// To hear what comes.
    Listen,
    /// To say these octets.
    Say(Octets),
    /// To record an entry.
    Perform(Recorded),
    /// That something passes.
    Pass(Passing),
    /// To take the link's next message, at this reading of the clock in Unix seconds.
    TakeNext { now: u64 },
    /// Nothing: it is over.
    Over(EndCause),
}
