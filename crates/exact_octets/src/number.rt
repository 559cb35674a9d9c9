//! Numbers of several octets, the high one first.

ghost use Rattle.std.specs.Prelude.{◌≡◌, ◌≤◌, ◌+◌, ◌*◌, ◌/◌, IfOk, IfErr};
ghost use Rattle.exact_octets.specs.Numbers.{from_to as from_to_front, even_up_to as even_up_to_front, is_among as is_among_front, high_of};
ghost use Rattle.exact_octets.specs.Reading.{Gives, IsOfOctets, made, octet_at as octet_front, number_at as number_front};

use crate::ReadFault;

/// Which numbers stand in a field.
#[derive(Clone, Copy)]
pub struct Numbers {
    /// The least of them.
    pub least: u64,
    /// The greatest of them.
    pub most: u64,
    /// Whether only the even ones do.
    pub even: bool,
}

impl Numbers {
    /// The numbers from one to another.
    pub fn from_to(least: u64, most: u64) -> Numbers
        ensures { result ≡ from_to_front least most }
    {
        Numbers {
            least,
            most,
            even: false,
        }
    }

    /// The even numbers up to another.
    pub fn even_up_to(most: u64) -> Numbers
        ensures { result ≡ even_up_to_front most }
    {
        Numbers {
            least: 0,
            most,
            even: true,
        }
    }

    fn has(self, number: u64) -> bool
        ensures { result ≡ is_among_front self number }
    {
        self.least <= number && number <= self.most && (!self.even || number % 2 == 0)
    }

    /// What these numbers leave without their last octet.
    fn without_last(self) -> Numbers
        ensures { result ≡ high_of self }
    {
        Numbers::from_to(self.least / 256, self.most / 256)
    }
}

/// The last octet of a number, behind its high ones.
fn last_at(octets: &[u8], numbers: Numbers, high: u64) -> Result<(u64, &[u8]), ReadFault>
    requires { high ≤ numbers.most / 256 }
    ensures gives { Gives (λ x. (x.0, x.1.now)) result (made (λ low. high * 256 + low) (octet_front (λ low. is_among_front numbers (high * 256 + low))) octets.now) }
    ensures most { IfOk result (λ x. x.0 ≤ numbers.most) }
    ensures no_memory { IfErr result IsOfOctets }
{
    match octets {
        [] => Err(ReadFault::Short),
        [low, rest @ ..] => {
            let number = high * 256 + u64::from(*low);
            if numbers.has(number) {
                Ok((number, rest))
            } else {
                Err(ReadFault::Malformed { left: octets.len() })
            }
        }
    }
}

/// A number of `width` octets, which is one of `numbers`. It is wrong at the octet with which it leaves them.
pub fn number_at(octets: &[u8], width: usize, numbers: Numbers) -> Result<(u64, &[u8]), ReadFault>
    ensures gives { Gives (λ x. (x.0, x.1.now)) result (number_front width numbers octets.now) }
    ensures most { IfOk result (λ x. x.0 ≤ numbers.most) }
    ensures no_memory { IfErr result IsOfOctets }
{
    if width == 0 {
        return Ok((0, octets));
    }
    let (high, rest) = number_at(octets, width - 1, numbers.without_last())?;
    let (number, rest) = last_at(rest, numbers, high)?;
    Ok((number, rest))
}
