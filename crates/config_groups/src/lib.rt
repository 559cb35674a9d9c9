//! The settings of a configuration: its groups, the table of its variables, and what they come to.
//!
//! The one contract: the settings are those that the definition gives, and each fault is the first in the order of reading.
#![tactic(auto)]

mod fault;
mod field;
mod group;
mod missing;
mod passed;
mod read;
mod role;
mod settings;
mod table;

pub use read::{ConfigFault, read_config};
pub use settings::{Core, LinkSettings, Service, Settings, Smsbox, User};
