//! Text in the default alphabet of GSM 03.38 with its extension, and septets as text: two tables that are read
//! by their index, and both ways of the alphabet over them.

ghost use Rattle.std.specs.Prelude.{◌≡◌, ◌≢◌, ◌<◌, ◌++◌, ◌==◌, not, ◌&&◌, All, Contains, IfOk, OnOk, chars, encode_utf8_all, string_bytes, [], ◌∷◌, if◌then◌else◌};
ghost use Rattle.std.specs.List.{flat_map};
ghost use Rattle.gsm_alphabet.specs.Alphabet.{characters, septets_of, plain_character, extended_character, text_of, escape, space};
ghost use Rattle.gsm_alphabet.specs.AlphabetSteps.{septets_of_code, shown};

use kn_base::{Memory, Octets};
use std::alloc::Global;

// The septet that calls the extension (GSM 03.38 6.2.1.1).
const ESCAPE: u8 = 0x1B;

// In a code, the mark of a septet that stands behind the escape.
const BEHIND: u8 = 0x80;

// The code of `?`, which stands for a character outside the alphabet.
const UNKNOWN: u8 = 0x3F;

// The code of the euro sign, alone among its neighbours.
const EURO: u8 = BEHIND + 0x65;

// The codes of U+0000 to U+00FF: the character's septet, with the mark where it stands behind the escape.
static LATIN: [u8; 256] = [
    0x3F, 0x3F, 0x3F, 0x3F, 0x3F, 0x3F, 0x3F, 0x3F, 0x3F, 0x3F, 0x0A, 0x3F, 0x8A, 0x0D, 0x3F, 0x3F,
    0x3F, 0x3F, 0x3F, 0x3F, 0x3F, 0x3F, 0x3F, 0x3F, 0x3F, 0x3F, 0x3F, 0x3F, 0x3F, 0x3F, 0x3F, 0x3F,
    0x20, 0x21, 0x22, 0x23, 0x02, 0x25, 0x26, 0x27, 0x28, 0x29, 0x2A, 0x2B, 0x2C, 0x2D, 0x2E, 0x2F,
    0x30, 0x31, 0x32, 0x33, 0x34, 0x35, 0x36, 0x37, 0x38, 0x39, 0x3A, 0x3B, 0x3C, 0x3D, 0x3E, 0x3F,
    0x00, 0x41, 0x42, 0x43, 0x44, 0x45, 0x46, 0x47, 0x48, 0x49, 0x4A, 0x4B, 0x4C, 0x4D, 0x4E, 0x4F,
    0x50, 0x51, 0x52, 0x53, 0x54, 0x55, 0x56, 0x57, 0x58, 0x59, 0x5A, 0xBC, 0xAF, 0xBE, 0x94, 0x11,
    0x3F, 0x61, 0x62, 0x63, 0x64, 0x65, 0x66, 0x67, 0x68, 0x69, 0x6A, 0x6B, 0x6C, 0x6D, 0x6E, 0x6F,
    0x70, 0x71, 0x72, 0x73, 0x74, 0x75, 0x76, 0x77, 0x78, 0x79, 0x7A, 0xA8, 0xC0, 0xA9, 0xBD, 0x3F,
    0x3F, 0x3F, 0x3F, 0x3F, 0x3F, 0x3F, 0x3F, 0x3F, 0x3F, 0x3F, 0x3F, 0x3F, 0x3F, 0x3F, 0x3F, 0x3F,
    0x3F, 0x3F, 0x3F, 0x3F, 0x3F, 0x3F, 0x3F, 0x3F, 0x3F, 0x3F, 0x3F, 0x3F, 0x3F, 0x3F, 0x3F, 0x3F,
    0x3F, 0x40, 0x3F, 0x01, 0x24, 0x03, 0x3F, 0x5F, 0x3F, 0x3F, 0x3F, 0x3F, 0x3F, 0x3F, 0x3F, 0x3F,
    0x3F, 0x3F, 0x3F, 0x3F, 0x3F, 0x3F, 0x3F, 0x3F, 0x3F, 0x3F, 0x3F, 0x3F, 0x3F, 0x3F, 0x3F, 0x60,
    0x3F, 0x3F, 0x3F, 0x3F, 0x5B, 0x0E, 0x1C, 0x09, 0x3F, 0x1F, 0x3F, 0x3F, 0x3F, 0x3F, 0x3F, 0x3F,
    0x3F, 0x5D, 0x3F, 0x3F, 0x3F, 0x3F, 0x5C, 0x3F, 0x0B, 0x3F, 0x3F, 0x3F, 0x5E, 0x3F, 0x3F, 0x1E,
    0x7F, 0x3F, 0x3F, 0x3F, 0x7B, 0x0F, 0x1D, 0x3F, 0x04, 0x05, 0x3F, 0x3F, 0x07, 0x3F, 0x3F, 0x3F,
    0x3F, 0x7D, 0x08, 0x3F, 0x3F, 0x3F, 0x7C, 0x3F, 0x0C, 0x06, 0x3F, 0x3F, 0x7E, 0x3F, 0x3F, 0x3F,
];

// The codes of U+0390 to U+03AF.
static GREEK: [u8; 32] = [
    0x3F, 0x3F, 0x3F, 0x13, 0x10, 0x3F, 0x3F, 0x3F, 0x19, 0x3F, 0x3F, 0x14, 0x3F, 0x3F, 0x1A, 0x3F,
    0x16, 0x3F, 0x3F, 0x18, 0x3F, 0x3F, 0x12, 0x3F, 0x17, 0x15, 0x3F, 0x3F, 0x3F, 0x3F, 0x3F, 0x3F,
];

// The characters of the septets 00 to 7F (GSM 03.38 6.2.1).
static PLAIN: [char; 128] = [
    '@', '£', '$', '¥', 'è', 'é', 'ù', 'ì', 'ò', 'Ç', '\n', 'Ø', 'ø', '\r', 'Å', 'å', 'Δ', '_',
    'Φ', 'Γ', 'Λ', 'Ω', 'Π', 'Ψ', 'Σ', 'Θ', 'Ξ', '\u{1B}', 'Æ', 'æ', 'ß', 'É', ' ', '!', '"', '#',
    '¤', '%', '&', '\'', '(', ')', '*', '+', ',', '-', '.', '/', '0', '1', '2', '3', '4', '5', '6',
    '7', '8', '9', ':', ';', '<', '=', '>', '?', '¡', 'A', 'B', 'C', 'D', 'E', 'F', 'G', 'H', 'I',
    'J', 'K', 'L', 'M', 'N', 'O', 'P', 'Q', 'R', 'S', 'T', 'U', 'V', 'W', 'X', 'Y', 'Z', 'Ä', 'Ö',
    'Ñ', 'Ü', '§', '¿', 'a', 'b', 'c', 'd', 'e', 'f', 'g', 'h', 'i', 'j', 'k', 'l', 'm', 'n', 'o',
    'p', 'q', 'r', 's', 't', 'u', 'v', 'w', 'x', 'y', 'z', 'ä', 'ö', 'ñ', 'ü', 'à',
];

/// The septets of a text, one in each octet (GSM 03.38 6.2.1). A character of the extension becomes the escape
/// 1B and its septet (6.2.1.1). A character outside the alphabet, and ESC itself, becomes `?`.
pub fn to_gsm(alloc: Global, text: &str) -> Result<Octets, Memory>
    ensures septets { IfOk result (λ septets. septets ≡ flat_map septets_of (chars text.now)) }
    ensures small { IfOk result (λ septets. All (λ septet. septet < 128) septets) }

    // A text of the alphabet comes back.
    ensures back { All (Contains characters) (chars text.now)
        → IfOk result (λ septets. encode_utf8_all (text_of septets) ≡ text.now) }
{
    let mut septets = Octets::new(alloc);
    for c in text.chars() {
        push_septets(&mut septets, c)?;
    }
    Ok(septets)
}

/// The text of septets, one in each octet (GSM 03.38 6.2.1). Behind the escape 1B a septet is a character of
/// the extension (6.2.1.1), and where the extension has none, the septet's own: so 1B 1B is the character ESC.
/// An escape with nothing behind it is a space.
pub fn from_gsm(alloc: Global, septets: &[u8]) -> Result<String, Memory>
    requires { All (λ septet. septet < 128) septets.now }
    ensures text { IfOk result (λ text. string_bytes text ≡ encode_utf8_all (text_of septets.now)) }

    // Septets without an escape come back, so that each has a character of its own.
    ensures back { All (λ septet. septet ≢ escape) septets.now
        → IfOk result (λ text. flat_map septets_of (chars (string_bytes text)) ≡ septets.now) }
{
    let mut text = String::new(alloc);
    let mut behind = false;
    for septet in septets {
        behind = push_shown(&mut text, behind, *septet)?;
    }
    push_end(&mut text, behind)?;
    Ok(text)
}

// Puts the septets of one character last.
fn push_septets(septets: &mut Octets, c: char) -> Result<(), Memory>
    ensures { OnOk result (septets.new ≡ septets.old ++ septets_of c) }
{
    let code = code_of(c);
    if code < BEHIND {
        septets.push(code)
    } else {
        septets.extend_from_slice(&[ESCAPE, code - BEHIND])
    }
}

// The code of a character.
fn code_of(c: char) -> u8
    ensures { septets_of_code result ≡ septets_of c }
{
    let number = c as u32;
    if number < 0x100 {
        LATIN[number as usize]
    } else if number < 0x390 {
        UNKNOWN
    } else if number < 0x3B0 {
        GREEK[number as usize - 0x390]
    } else if number == 0x20AC {
        EURO
    } else {
        UNKNOWN
    }
}

// Puts what one septet shows last, and says whether the next one stands behind an escape.
fn push_shown(text: &mut String, behind: bool, septet: u8) -> Result<bool, Memory>
    requires { septet < 128 }
    ensures text { OnOk result (string_bytes text.new ≡ string_bytes text.old ++ encode_utf8_all (shown behind septet)) }
    ensures escape { IfOk result (λ escaped. escaped ≡ (not behind && (septet == ESCAPE))) }
{
    if behind {
        text.push(extended_character(septet))?;
        return Ok(false);
    }
    if septet == ESCAPE {
        return Ok(true);
    }
    text.push(plain_character(septet))?;
    Ok(false)
}

// Puts the space of an escape with nothing behind it last.
fn push_end(text: &mut String, behind: bool) -> Result<(), Memory>
    ensures { OnOk result (string_bytes text.new ≡ string_bytes text.old ++ encode_utf8_all (if behind then space ∷ [] else [])) }
{
    if behind {
        text.push(' ')?;
    }
    Ok(())
}

// The character of a septet.
fn plain_character(septet: u8) -> char
    requires { septet < 128 }
    ensures { result ≡ plain_character septet }
{
    PLAIN[septet as usize]
}

// The character of a septet behind the escape.
fn extended_character(septet: u8) -> char
    requires { septet < 128 }
    ensures { result ≡ extended_character septet }
{
    match septet {
        0x0A => '\u{C}',
        0x14 => '^',
        0x28 => '{',
        0x29 => '}',
        0x2F => '\\',
        0x3C => '[',
        0x3D => '~',
        0x3E => ']',
        0x40 => '|',
        0x65 => '€',
        _ => plain_character(septet),
    }
}
