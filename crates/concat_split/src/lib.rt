//! The parts of a text that is too long for one short message, and the user data header that goes out with each.
//!
//! `split` cuts a text as its `Limits` say, and gives its `Part`s or a `SplitFault`. Its one contract is that these are the
//! parts of `specs/Parts.antt`, a recursion on the whole characters of the text. From it follow that each part fits into one
//! message, that no escape or surrogate pair is cut, and that only what is past the last part that may be is lost.
//! `udh_of` makes the header that goes out, and `read_udh` reads one that came in: what it says of concatenation, a `Joint`,
//! or a `HeaderFault`. Lengths and places are octets; room is counted in septets, octets or UCS-2 units.
#![tactic(auto)]

mod characters;
mod header_fault;
mod joint;
mod limits;
mod outgoing;
mod part;
mod split_fault;
mod splitting;

pub use header_fault::HeaderFault;
pub use joint::{Joint, read_udh};
pub use limits::Limits;
pub use outgoing::udh_of;
pub use part::Part;
pub use split_fault::SplitFault;
pub use splitting::split;
