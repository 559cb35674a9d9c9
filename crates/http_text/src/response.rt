//! A response, as far as it is said: its status and its body.

mod write;

pub use write::write_response;

/// What a response says: its code with the reason (RFC 9110 15), and its body, which is a text and the name behind it.
#[derive(Clone, Copy)]
pub struct Response {
    /// The code with the reason, as `202 Accepted`.
    pub status: &'static [u8],
    /// The body, or its front where it ends with a name.
    pub text: &'static [u8],
    /// The name that the body ends with, empty where it ends with none.
    pub name: &'static [u8],
}
