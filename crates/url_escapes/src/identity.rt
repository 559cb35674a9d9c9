//! The text of an internal id.

ghost use Rattle.std.specs.Prelude.{◌≡◌, IfOk};
ghost use Rattle.url_escapes.specs.Identity.{id_text};

use kn_base::{Memory, Octets};
use std::alloc::Global;
use uuid::Uuid;

/// The text of a message's id: the birth of its store and its number there, each of 64 bits, as a UUID with hyphens in
/// lower case (RFC 9562, section 4). `Memory`.
pub fn internal_id(alloc: Global, birth: u64, number: u64) -> Result<Octets, Memory>
    ensures { IfOk result (λ text. text ≡ id_text birth number) }
{
    let id = Uuid::from_u64_pair(birth, number);
    let mut buffer = Uuid::encode_buffer();
    let text = id.hyphenated().encode_lower(&mut buffer);
    Octets::from_slice(alloc, text.as_bytes())
}
