//! The URLs that are called for reports on messages.
//!
//! A request may name a URL, and a mask of the kinds of reports that it asks for. `acked_url`, `rejected_url` and `reported_url` say which
//! URL an entry of the store calls: none where the mask lacks the entry's kind or there is no URL, and else the request's own, with its
//! escapes filled. `asks_centre` says whether a centre that took a message is still to report on it.
//!
//! The one contract: the URL is that of the definition (`specs/ReportUrl.antt`), by the request of the message and by what the entry says.
#![tactic(auto)]

mod facts;
mod mask;
mod report;
mod url;

pub use mask::asks_centre;
pub use url::{acked_url, rejected_url, reported_url};
