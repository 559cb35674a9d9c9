//! Which octets the text of a field may have.

ghost use Rattle.std.specs.Prelude.{◌≡◌};
ghost use Rattle.exact_octets.specs.Alphabet.{is_in as is_among};

/// The octets that a text is made of.
#[derive(Clone, Copy)]
pub enum Alphabet {
    /// Any octet.
    Any,
    /// Septets: octets below 128.
    Septet,
    /// Decimal digits in ASCII.
    Digit,
}

pub(crate) fn is_in(alphabet: Alphabet, octet: u8) -> bool
    ensures { result ≡ is_among alphabet octet }
{
    match alphabet {
        Alphabet::Any => true,
        Alphabet::Septet => octet < 128,
        Alphabet::Digit => 48 <= octet && octet <= 57,
    }
}
