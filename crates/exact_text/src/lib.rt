//! Fields of text read exactly: what the two protocols in ASCII are made of.
//!
//! Beside the readers of `exact_octets` stand here those of a decimal of fixed width (`decimal_at`), of so many characters of a field
//! (`characters_at`), of an octet in two hex digits (`hex_octet_at`), and of a field with the mark behind it (`ended_decimal_at`,
//! `mark_at`); the writers `put_decimal` and `put_hex_octet`; and the sum that both protocols check (`checksum`).
//!
//! The one contract: a reader does what its definition in `specs/Text.antt` does, and the laws in `proofs/` say of each that it is
//! exact: what is read is spelled so, what is spelled so is read, whatever follows, and a fault stands at the first octet with which
//! no spelling goes on.
#![tactic(auto)]

mod characters;
mod decimal;
mod hex_octet;
mod mark;
mod sum;

pub use characters::{Characters, characters_at};
pub use decimal::{decimal_at, put_decimal};
pub use hex_octet::{hex_octet_at, put_hex_octet};
pub use mark::{ended_decimal_at, mark_at};
pub use sum::checksum;
