//! So many characters of a field.

ghost use Rattle.std.specs.Prelude.{◌≡◌, length, IfOk, IfErr};
ghost use Rattle.exact_octets.specs.Reading.{Gives, IsOfOctets};
ghost use Rattle.exact_text.specs.Text.{is_of as is_of_front, characters_at as characters_front};

use exact_octets::ReadFault;

/// Which characters stand in a text.
#[derive(Clone, Copy)]
pub enum Characters {
    /// Any octet but STX (02) and ETX (03), which begin and end a frame.
    Text,
    /// The same without `/`, which ends a field.
    Field,
}

pub(crate) fn is_of(characters: Characters, octet: u8) -> bool
    ensures { result ≡ is_of_front characters octet }
{
    match characters {
        Characters::Text => octet != 2 && octet != 3,
        Characters::Field => octet != 2 && octet != 3 && octet != 47,
    }
}

/// So many characters, and what stands behind them. It takes no memory.
pub fn characters_at(
    octets: &[u8],
    len: usize,
    characters: Characters,
) -> Result<(&[u8], &[u8]), ReadFault>
    ensures gives { Gives (λ x. (x.0.now, x.1.now)) result (characters_front characters len octets.now) }
    ensures len { IfOk result (λ x. length x.0.now ≡ len) }
    ensures no_memory { IfErr result IsOfOctets }
{
    let front = &octets[..len.min(octets.len())];
    for (index, octet) in front.iter().enumerate() {
        if !is_of(characters, *octet) {
            return Err(ReadFault::Malformed {
                left: octets.len() - index,
            });
        }
    }
    if octets.len() < len {
        return Err(ReadFault::Short);
    }
    Ok(octets.split_at(len))
}
