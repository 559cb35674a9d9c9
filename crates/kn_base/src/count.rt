//! Counts that never fall.

ghost use Rattle.std.specs.Prelude.{◌≡◌, ◌≤◌};
ghost use Rattle.kn_base.specs.Count.{Rose, next_count};

/// The count after one more. At the end of its type it stands still.
pub fn raised(count: u64) -> u64
    ensures value { result ≡ next_count count }
    ensures rose { Rose count result }
    ensures kept { count ≤ result }
{
    count.saturating_add(1)
}
