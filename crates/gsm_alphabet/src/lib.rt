//! Text and its octets: the default alphabet of GSM 03.38, packed septets, UCS-2, and the charsets of a request.
//!
//! `to_gsm` and `from_gsm` go between text and septets, one septet in each octet, by one table of the alphabet
//! with its extension. `pack` and `unpack` go between septets and the octets of a message, where eight septets
//! fill seven octets. `to_ucs2` writes text as UTF-16, the high octet of each unit first. `from_charset` reads
//! octets of a `Charset` as text, or says by a `CharsetFault` why and where they are none.
//!
//! The one contract: each answer is the one list or text that the definitions name, so that nothing is left to
//! chance, what was packed unpacks, and a text of the alphabet comes back whole.
#![tactic(auto)]

mod alphabet;
mod bits;
mod charset_text;
mod packing;
mod ucs2;

pub use alphabet::{from_gsm, to_gsm};
pub use charset_text::{CharsetFault, from_charset};
pub use packing::{pack, unpack};
pub use ucs2::to_ucs2;
