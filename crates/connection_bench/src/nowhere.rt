//! A store that takes nothing.

use gate_model::{Acceptor, Refusal, Reply};
use sms_record::Sms;

/// A store whose queue is always full.
#[derive(Drop)]
pub struct Nowhere;

impl Acceptor for Nowhere {
    ghost use Rattle.std.specs.Prelude.{ℕ};

    ghost faults = { λ _. 0 };

    ghost leads = { λ _ _ _. Unit {0} };

    ghost can_submit = { λ _. Unit {0} };

    ghost leads_nowhere = { λ _. tt };

    ghost leads_on = { λ _ _ _ _ _ _ _. tt };

    fn submit(&mut self, _parts: Vec<Sms>, _time: u64) -> Result<Reply, Refusal> {
        Err(Refusal::Full { held: 0, limit: 0 })
    }
}
