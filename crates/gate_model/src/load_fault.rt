//! Why a payload isn't taken.

/// Why a payload isn't taken.
#[derive(Clone, Copy)]
pub enum LoadFault {
    /// It is no entry that may come after those before it.
    Outside,
    /// There was no memory.
    Memory,
}
