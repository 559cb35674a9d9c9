//! A centre that follows a script, for tests of what speaks to one.
//!
//! `Centre` hears octets and answers them as its `Script` says: a login, messages (`CentreReply`), enquiries, the end of a session. It sends the
//! messages of its script behind the login, and each report behind as many messages as the script says. It speaks SMPP 3.4, by the reader and
//! the writer of `smpp_wire`. `CentrePeer` is the same as a peer, which tells its talk.
//!
//! The one contract: what it says are whole frames, whatever it hears, and the peer keeps the laws of `Peer`.
#![tactic(auto)]

mod answering;
mod centre;
mod centre_peer;
mod delivering;
mod place;
mod reply;
mod saying;
mod script;
mod status;

pub use centre::Centre;
pub use centre_peer::CentrePeer;
pub use reply::CentreReply;
pub use script::Script;
