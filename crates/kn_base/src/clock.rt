//! What time it is.

ghost use Rattle.std.specs.Prelude.{◌≡◌, ℕ, ◌<◌, ◌≤◌, ◌^◌, [], ◌∷◌, ◌++◌, List, Option};
ghost use Rattle.kn_base.specs.Clock.{Adds};

/// The first second that a clock doesn't read.
pub const CLOCK_END: u64 = 1 << 37;

/// Readings in Unix seconds, none below an earlier one.
pub trait Clock {
    /// The readings so far, where they are told. A clock may stop telling them.
    ghost readings: { Self → Option (List ℕ) };

    /// The last reading, and 0 before the first.
    ghost latest: { Self → ℕ };

    /// Reads the clock.
    fn now(&mut self) -> u64
        ensures range { result < 2 ^ 37 }
        ensures order { latest self.old ≤ result }
        ensures latest { latest self.new ≡ result }
        ensures told { Adds result (readings self.old) (readings self.new) };

    /// Lets about so many seconds pass. Nothing is promised of how many.
    fn rest(&mut self, seconds: u32)
        ensures told { readings self.new ≡ readings self.old }
        ensures latest { latest self.new ≡ latest self.old };
}
