//! A URL that is still to be called.

use kn_base::Octets;

/// A URL that is still to be called, whether somebody has taken it, and how often it was given back since the store was opened.
#[derive(Drop)]
pub struct Job {
    pub url: Octets,
    pub leased: bool,
    pub returns: u32,
}
