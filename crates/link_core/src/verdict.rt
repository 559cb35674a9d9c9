//! What a centre answers to a message.

use kn_base::Octets;

/// Whether a centre took a message.
#[derive(Drop)]
pub enum Verdict {
    /// It took the message. `foreign` is its own id of it, by which reports name it, at most 2,048 octets, and empty where it gave none.
    Good { foreign: Octets },
    /// It didn't take it now. The message may be sent again.
    Temporary { code: u32 },
    /// It won't take it.
    Permanent { code: u32 },
}
