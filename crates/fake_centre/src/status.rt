//! The statuses that a centre says by itself (SMPP 3.4, 5.1.3).

/// All is well.
pub const OK: u32 = 0;
/// The command isn't known.
pub const UNKNOWN_COMMAND: u32 = 3;
/// A command that isn't for this state of the session.
pub const WRONG_STATE: u32 = 4;
/// A login within a session.
pub const ALREADY_BOUND: u32 = 5;
