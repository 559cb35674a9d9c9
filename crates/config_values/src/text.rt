//! A value that is a text.

ghost use Rattle.std.specs.Prelude.{◌≡◌, chars, length};
ghost use Rattle.std.specs.Str.{is_utf8 as is_utf8_by};
ghost use Rattle.config_values.specs.Values as spec;

/// Whether a value is UTF-8.
#[tactic(auto, using(crate::proofs::Texts::some_utf8, crate::proofs::Texts::no_utf8))]
pub(crate) fn is_utf8(value: &[u8]) -> bool
    ensures { result ≡ is_utf8_by value.now }
{
    str::from_utf8(value).is_ok()
}

/// How many characters a text has.
#[tactic(auto, using(std::proofs::lemmas::Str::chars_from_encodes))]
fn count(text: &str) -> usize
    ensures { result ≡ length (chars text.now) }
{
    text.chars().count()
}

/// How many characters a value of UTF-8 has, and 0 of any other value. It takes no memory.
#[tactic(auto, using(crate::proofs::Texts::some_characters, crate::proofs::Texts::no_characters))]
pub fn characters(value: &[u8]) -> usize
    ensures { result ≡ spec.characters value.now }
{
    match str::from_utf8(value) {
        Ok(text) => count(text),
        Err(_) => 0,
    }
}

/// Whether a value is UTF-8 of at most so many characters.
pub(crate) fn is_text(value: &[u8], most: usize) -> bool
    ensures { result ≡ spec.is_text most value.now }
{
    is_utf8(value) && characters(value) <= most
}
