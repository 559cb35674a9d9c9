//! Octets in hex digits.

ghost use Rattle.std.specs.Prelude.{◌≡◌, ◌++◌, Ok, Err, IfOk, IfSome, IfNone, OnOk, OnErr, IsOkUnless, not, position};
ghost use Rattle.std.specs.Char.{is_ascii_hexdigit};
ghost use Rattle.kn_base.specs.Hexadecimal.{hex_fault};
ghost use Rattle.hex.specs.Hex.{decode_of, encode_upper};

use crate::{Memory, Octets};
use std::alloc::Global;

/// Why a text is no octets in hex digits.
#[derive(Clone, Copy, Debug, PartialEq)]
pub enum HexFault {
    /// The first octet that is no hex digit is at `at`.
    Digit { at: usize },
    /// All are hex digits, but their number, `len`, is odd.
    Odd { len: usize },
    /// There was no memory for the octets.
    Memory,
}

/// The octets that pairs of hex digits write, in either case, the high digit first.
pub fn read_hex(alloc: Global, text: &[u8]) -> Result<Octets, HexFault>
    ensures fault { IfSome (hex_fault text.now) (λ fault. result ≡ Err fault) }
    ensures none { IfNone (hex_fault text.now) (IsOkUnless result HexFault.Memory) }
    ensures octets { IfOk result (λ octets. decode_of text.now ≡ Ok octets) }
{
    if let Some(at) = first_no_digit(text) {
        return Err(HexFault::Digit { at });
    }
    if text.len() % 2 == 1 {
        return Err(HexFault::Odd { len: text.len() });
    }
    match hex::decode(alloc, text) {
        Ok(octets) => Ok(Octets::from_vec(octets)),
        Err(_) => Err(HexFault::Memory),
    }
}

/// The place of the first octet that is no hex digit.
fn first_no_digit(text: &[u8]) -> Option<usize>
    ensures { result ≡ position (λ c. not (is_ascii_hexdigit c)) text.now }
{
    text.iter().position(|c| !c.is_ascii_hexdigit())
}

/// Puts octets last, each as two hex digits in upper case. After `Memory` nothing has changed.
pub fn write_hex(into: &mut Octets, bytes: &[u8]) -> Result<(), Memory>
    ensures ok { OnOk result (into.new ≡ into.old ++ encode_upper bytes.now) }
    ensures err { OnErr result (into.new ≡ into.old) }
{
    let digits = hex::encode_upper(into.allocator(), bytes)?;
    into.extend_from_slice(digits.as_bytes())
}
