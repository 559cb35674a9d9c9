//! How long a message is worth sending.

ghost use Rattle.std.specs.Prelude.{◌≡◌, ◌<◌, ◌≤◌, ◌^◌};
ghost use Rattle.link_core.specs.Validity as spec;

/// How many seconds a minute has.
const MINUTE: u64 = 60;

/// The minutes that are left at a reading of the clock of a message that was asked for at `time` and is worth sending so many minutes. One
/// that has begun counts whole, and one is left at least.
pub fn minutes_left(time: u64, validity: u32, now: u64) -> u64
    requires time { time < 2 ^ 37 }
    ensures value { result ≡ spec.minutes_left time validity now }
    ensures most { time ≤ now → 1 ≤ validity → result ≤ validity }
{
    let end = time + MINUTE * u64::from(validity);
    let left = end.saturating_sub(now);
    ((left + MINUTE - 1) / MINUTE).max(1)
}
