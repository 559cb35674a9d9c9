//! The head of a request (RFC 9112 2), as far as it is looked at.

mod fields;
mod lines;
mod place;
mod read;

use kn_base::Octets;
pub use place::{Place, read_more};
pub use read::{HEAD_LIMIT, HeadRead, LINE_LIMIT, read_head};

/// What a request's head says.
#[derive(Drop)]
pub struct Head {
    /// Whether the method is GET.
    pub get: bool,
    /// The minor version: 0 for HTTP/1.0, 1 for HTTP/1.1.
    pub minor: u8,
    /// The request target (RFC 9112 3.2).
    pub target: Octets,
    /// Whether the connection is to be closed after the answer: by the version, or by a field `Connection: close`.
    pub close: bool,
    /// Whether a body follows: there is a Transfer-Encoding, or a Content-Length other than 0.
    pub body: bool,
}
