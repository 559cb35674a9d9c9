//! Counts that were read twice.

ghost use Rattle.std.specs.Prelude.{◌↔◌, IsTrue};
ghost use Rattle.kn_base.specs.Count.{Rose};

/// Whether a count rose between two readings, or stands at its end.
pub fn has_risen(before: u64, now: u64) -> bool
    ensures { IsTrue result ↔ Rose before now }
{
    before < now || now == u64::MAX
}
