//! What the value of a variable may hold.

ghost use Rattle.std.specs.Prelude.{◌≡◌};
ghost use Rattle.config_values.specs.Values as spec;

use crate::list::is_list;
use crate::number::is_number_within;
use crate::sender::is_sendable;
use crate::shape::{has_len, is_digits, is_path, is_printable, is_word};
use crate::text::{is_text, is_utf8};
use crate::truth::truth_of;

/// What a value may hold (docs/FORMATS.md, 'Values of a configuration'). Bounds are counted in.
#[derive(Clone, Copy)]
pub enum Grammar {
    /// At least and at most so many octets, any.
    Octets { least: usize, most: usize },
    /// 1 to 9 decimal digits, whose number is at least and at most so great.
    Number { least: u64, most: u64 },
    /// `true`, `yes`, `on`, `1`, `false`, `no`, `off` or `0`, as written here.
    Truth,
    /// An address that a message can come from: an optional `+` and 1 to 15 decimal digits, or 1 to 11 characters, each an ASCII
    /// letter, a digit, a space or one of `.,:;!?+-/()=*#'"`.
    Sender,
    /// Entries between `;`, of which empty ones don't count: at most 1,000, each of at most 64 octets.
    List,
    /// One to so many octets of printable ASCII, the space among them.
    Printable { most: usize },
    /// One to so many decimal digits.
    Digits { most: usize },
    /// `/`, and any octets behind it.
    Path,
    /// One to so many octets, none of them a space or a TAB.
    Word { most: usize },
    /// UTF-8 of at most so many octets; it may be empty.
    Utf8 { most: usize },
    /// UTF-8 of at most so many characters; it may be empty.
    Characters { most: usize },
}

/// Whether a variable of this grammar may hold these octets. It takes no memory.
pub fn holds(grammar: Grammar, value: &[u8]) -> bool
    ensures { result ≡ spec.holds grammar value.now }
{
    match grammar {
        Grammar::Octets { least, most } => has_len(value, least, most),
        Grammar::Number { least, most } => is_number_within(value, least, most),
        Grammar::Truth => truth_of(value).is_some(),
        Grammar::Sender => is_sendable(value),
        Grammar::List => is_list(value),
        Grammar::Printable { most } => is_printable(value, most),
        Grammar::Digits { most } => is_digits(value, most),
        Grammar::Path => is_path(value),
        Grammar::Word { most } => is_word(value, most),
        Grammar::Utf8 { most } => value.len() <= most && is_utf8(value),
        Grammar::Characters { most } => is_text(value, most),
    }
}
