//! What was said and waits for its answer.

/// What waits for its answer: its tag, and the reading of the clock that came with its saying, in Unix seconds.
#[derive(Clone, Copy)]
pub(crate) struct Asked {
    pub(crate) tag: u32,
    pub(crate) said: u64,
}

/// A message that was said and waits for its answer.
#[derive(Clone, Copy)]
pub(crate) struct Submitted {
    /// The message's number.
    pub(crate) message: u64,
    pub(crate) asked: Asked,
}
