//! What a worker hears and says over a peer, a piece at a time.
//!
//! `hear` takes what comes next (`Heard`), `say` gives octets whole (`Said`). Want of memory is told apart from a failure of
//! the peer: where its count rose, it was that. The memory for what is heard is taken before it is heard, so no octet is
//! lost for want of it. `drop_front` drops what was dealt with of what is kept.
//!
//! The one contract: what a piece means for the peer's course, by the answer.
#![tactic(auto)]

mod count;
mod heard;
mod kept;
mod said;

pub use count::has_risen;
pub use heard::{Heard, PIECE_LIMIT, hear};
pub use kept::drop_front;
pub use said::{Said, say};
