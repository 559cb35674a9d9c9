//! Which link may carry which message: the rules of a configuration.
//!
//! `Rules` has a rule for each link, and how many messages may wait. `carries` says what a protocol can carry at all, `usable` how
//! well a link suits a message by its rule, `routable` whether any link does, and `assign` which link sends it now.
//! `copy_rules` copies rules.
//!
//! The one contract: each of the four answers what its definition says, for every message and every rule. None of them takes memory.
#![tactic(auto)]

mod carriage;
mod cimd2;
mod copies;
mod fit;
mod link_kind;
mod link_rule;
mod lists;
mod pool;
mod rules;

pub use carriage::carries;
pub use copies::copy_rules;
pub use fit::{Fit, usable};
pub use link_kind::LinkKind;
pub use link_rule::LinkRule;
pub use pool::{assign, routable};
pub use rules::Rules;
