//! The sum that a frame is checked by.

ghost use Rattle.std.specs.Prelude.{◌≡◌};
ghost use Rattle.exact_text.specs.Text.{checksum as checksum_front};

/// The low eight bits of the sum of octets.
pub fn checksum(octets: &[u8]) -> u8
    ensures { result ≡ checksum_front octets.now }
{
    let mut sum: u8 = 0;
    for octet in octets {
        sum = sum.wrapping_add(*octet);
    }
    sum
}
