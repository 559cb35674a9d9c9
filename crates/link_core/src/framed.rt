//! What octets say of the frame at their front.

use crate::Heard;

/// What stands at the front of octets.
#[derive(Drop)]
pub enum Framed {
    /// A frame of `len` octets, which says this.
    Whole { heard: Heard, len: usize },
    /// No frame yet, and one may come.
    NeedMore,
    /// None, whatever follows. `at` is the place that the protocol names for it, counted from 0, and `code` its reason.
    Bad { at: usize, code: u32 },
}
