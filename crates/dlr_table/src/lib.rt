//! The messages that wait for a report of their centre.
//!
//! A centre answers a message that it took with an id of its own choice, the foreign id, and names it again in each report.
//! So a key is the SMSC id of a link and a foreign id. `Reports` holds a list of `Awaited` messages under each key, since
//! nothing keeps a centre from giving one id twice.
//!
//! The one contract: `add` puts a message last under its key, `close` takes the oldest away, and nothing else changes a list.
//! Contracts see the list under a key (`under`), how many surely find room there (`spare`), and how many there are in all
//! (`count_of`). So the entries may be kept and searched in another way under the same contract.
#![tactic(auto)]

mod awaited;
mod key;
mod reports;

pub use awaited::Awaited;
pub use reports::Reports;
