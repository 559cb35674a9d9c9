//! Text as the octets of a UCS-2 message.

ghost use Rattle.std.specs.Prelude.{◌≡◌, ◌++◌, IfOk, OnOk, chars};
ghost use Rattle.std.specs.List.{flat_map};
ghost use Rattle.gsm_alphabet.specs.Ucs2.{ucs2_of};

use kn_base::{Memory, Octets};
use std::alloc::Global;

/// The octets of a text in UTF-16, the high octet of each unit first (GSM 03.38 6.2.3, RFC 2781 2.1).
pub fn to_ucs2(alloc: Global, text: &str) -> Result<Octets, Memory>
    ensures { IfOk result (λ octets. octets ≡ flat_map ucs2_of (chars text.now)) }
{
    let mut octets = Octets::new(alloc);
    for c in text.chars() {
        push_units(&mut octets, c)?;
    }
    Ok(octets)
}

// Puts the octets of one character last.
fn push_units(octets: &mut Octets, c: char) -> Result<(), Memory>
    ensures { OnOk result (octets.new ≡ octets.old ++ ucs2_of c) }
{
    let mut buffer = [0; 2];
    let units: &[u16] = c.encode_utf16(&mut buffer);
    for unit in units {
        octets.extend_from_slice(&unit.to_be_bytes())?;
    }
    Ok(())
}
