//! What a session is given.

use gate_model::{Refusal, Reply};
use gate_store::Taken;
use kn_base::Octets;

/// What a session is given: what came of its last wish.
pub enum Given {
    /// The connection stands.
    Begin,
    /// Octets came, one at least.
    Heard(Octets),
    /// Nothing came in time.
    Quiet,
    /// Nothing more comes.
    End,
    /// Listening failed.
    Fault,
    /// What was to be said was said whole.
    Said,
    /// Saying it failed.
    SayFault,
    /// There was no memory to listen, or to say it.
    Starved,
    /// The store's answer to an entry.
    Answered(Result<Reply, Refusal>),
    /// What was to pass has passed.
    Passed,
    /// The store's answer to the wish for a message.
    Taken(Result<Option<Taken>, Refusal>),
    /// The session is to end.
    Stop,
}
