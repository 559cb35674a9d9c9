//! Whether an entry is refused.

ghost use Rattle.std.specs.Prelude.{◌≡◌, ◌<◌, ◌^◌, length, not, position};
ghost use Rattle.std.specs.Result.{result_err};
ghost use Rattle.std.specs.Option.{option_or};
ghost use Rattle.route_rules.specs.Routes.{routable as is_routable};
ghost use Rattle.gate_entries.specs.Size.{parts_of};
ghost use Rattle.gate_model.specs.Gate.{model_of, rules_of};
ghost use Rattle.gate_model.specs.Lawful.{refusal, refused_parts, past_queue, past_arrivals, past_entries, most_entries};

use crate::{Gate, Refusal};
use gate_entries::Recorded;
use route_rules::{Rules, routable};
use sms_record::Sms;

/// The most entries that a store records.
pub(crate) const MOST_ENTRIES: u64 = 1 << 48;

/// The first of these parts that no link may carry.
fn first_without_route(rules: &Rules, parts: &[Sms]) -> Option<usize>
    ensures { result ≡ position (λ sms. not (is_routable rules.now sms)) parts.now }
{
    parts.iter().position(|sms| !routable(rules, sms))
}

impl Gate {
    /// Whether a recorded entry is refused, and why.
    ///
    /// `NoRoute` exactly for the first part that no link may carry, up or not. Else `Full` exactly where there are parts and they
    /// and the messages that wait are more than may wait, or where one more arrival is more than may be held, or where as many
    /// entries were recorded as ever may be. It takes no memory, and its time doesn't depend on how much the gate holds.
    pub fn check(&self, entry: &Recorded) -> Result<(), Refusal>
        requires { length (parts_of entry.now) < 2 ^ 32 }
        ensures { result_err result ≡ refusal (rules_of self.now) (model_of self.now) entry.now }
    {
        match entry {
            Recorded::Accept(accept) => self.check_parts(accept.parts.as_slice()),
            Recorded::Answered(answered) => self.check_parts(answered.parts.as_slice()),
            Recorded::Arrived(_) => self.check_arrival(),
            _ => self.check_entries(),
        }
    }

    /// The parts of an entry.
    fn check_parts(&self, parts: &[Sms]) -> Result<(), Refusal>
        requires { length parts.now < 2 ^ 32 }
        ensures { result_err result ≡ refused_parts (rules_of self.now) (model_of self.now) parts.now }
    {
        if let Some(part) = first_without_route(&self.rules, parts) {
            return Err(Refusal::NoRoute { part: part as u32 });
        }
        self.check_queue(parts)?;
        self.check_entries()
    }

    /// Whether these parts find room among the messages that wait.
    fn check_queue(&self, parts: &[Sms]) -> Result<(), Refusal>
        ensures { result_err result ≡ past_queue (rules_of self.now) (model_of self.now) parts.now }
    {
        let held = self.waiting.len() as u64;
        let limit = self.rules.outgoing;
        if parts.len() as u64 > limit.saturating_sub(held) {
            return Err(Refusal::Full { held, limit });
        }
        Ok(())
    }

    /// Whether one more arrival finds room, and one more entry.
    fn check_arrival(&self) -> Result<(), Refusal>
        ensures { result_err result ≡ option_or (past_arrivals (rules_of self.now) (model_of self.now)) (past_entries (model_of self.now)) }
    {
        let held = self.arrivals.len() as u64;
        let limit = self.rules.incoming;
        if held >= limit {
            return Err(Refusal::Full { held, limit });
        }
        self.check_entries()
    }

    /// Whether one more entry may be recorded.
    fn check_entries(&self) -> Result<(), Refusal>
        ensures { result_err result ≡ past_entries (model_of self.now) }
    {
        let held = self.counts.entries;
        if held >= MOST_ENTRIES {
            return Err(Refusal::Full {
                held,
                limit: MOST_ENTRIES,
            });
        }
        Ok(())
    }
}
