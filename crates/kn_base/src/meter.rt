//! What a source and a sink have in common: counts of what went wrong.

ghost use Rattle.std.specs.Prelude.{◌≡◌};
ghost use Rattle.kn_base.specs.Course.{Course};

/// One end of a connection. Its counts never fall, and only its own calls raise them.
pub trait Meter {
    /// What it has been through so far.
    ghost course: { Self → Course };

    /// How many calls found no memory.
    fn starved(&self) -> u64
        ensures { result ≡ (course self.now).counts.starved };
}
