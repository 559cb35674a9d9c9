//! Values that are told by their octets one by one.

ghost use Rattle.std.specs.Prelude.{◌≡◌, length};
ghost use Rattle.std.specs.Char.{is_ascii_digit};
ghost use Rattle.std.specs.List.{list_all};
ghost use Rattle.config_values.specs.Values as spec;

/// Whether there are at least and at most so many octets.
pub(crate) fn has_len(value: &[u8], least: usize, most: usize) -> bool
    ensures { result ≡ spec.is_within least most (length value.now) }
{
    least <= value.len() && value.len() <= most
}

fn are_digits(value: &[u8]) -> bool
    ensures { result ≡ list_all is_ascii_digit value.now }
{
    value.iter().all(|octet| octet.is_ascii_digit())
}

/// Whether these are one to so many decimal digits.
pub(crate) fn is_digits(value: &[u8], most: usize) -> bool
    ensures { result ≡ spec.is_digits most value.now }
{
    has_len(value, 1, most) && are_digits(value)
}

fn are_printable(value: &[u8]) -> bool
    ensures { result ≡ list_all spec.is_printable_octet value.now }
{
    value.iter().all(|&octet| b' ' <= octet && octet <= b'~')
}

/// Whether these are one to so many octets of printable ASCII.
pub(crate) fn is_printable(value: &[u8], most: usize) -> bool
    ensures { result ≡ spec.is_printable most value.now }
{
    has_len(value, 1, most) && are_printable(value)
}

fn has_no_blank(value: &[u8]) -> bool
    ensures { result ≡ list_all spec.is_no_blank value.now }
{
    value.iter().all(|&octet| octet != b' ' && octet != b'\t')
}

/// Whether these are one to so many octets without a blank.
pub(crate) fn is_word(value: &[u8], most: usize) -> bool
    ensures { result ≡ spec.is_word most value.now }
{
    has_len(value, 1, most) && has_no_blank(value)
}

/// Whether the first octet is `/`.
pub(crate) fn is_path(value: &[u8]) -> bool
    ensures { result ≡ spec.is_path value.now }
{
    matches!(value, [b'/', ..])
}
