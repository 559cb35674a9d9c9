//! What a dial asks for.

use kn_base::Octets;

/// Where a dial was to lead.
#[derive(Drop)]
pub struct Asked {
    /// A name or an address, as it was asked for.
    pub host: Octets,
    /// A TCP port.
    pub port: u16,
}
