//! Whether octets are a user data header (GSM 03.40 9.2.3.24).

ghost use Rattle.std.specs.Prelude.{◌≡◌, ◌<◌, IfSome, length, option_map};
ghost use Rattle.sendsms_form.specs.Variables as spec;

// Whether octets are no header at all, or a well-formed one.
pub(crate) fn is_header(octets: &[u8]) -> bool
    ensures { result ≡ spec.is_header octets.now }
{
    match octets {
        [] => true,
        [count, rest @ ..] => usize::from(*count) == rest.len() && are_elements(rest),
    }
}

// Whether elements fill the octets.
fn are_elements(octets: &[u8]) -> bool
    ensures { result ≡ spec.fill (length octets.now) octets.now }
{
    let mut rest = octets;
    for _ in 0..octets.len() {
        if rest.is_empty() {
            return true;
        }
        match behind_element(rest) {
            Some(behind) => rest = behind,
            None => return false,
        }
    }
    rest.is_empty()
}

// What stands behind the element in front.
fn behind_element(octets: &[u8]) -> Option<&[u8]>
    ensures behind { option_map (λ rest. rest.now) result ≡ spec.behind_element octets.now }
    ensures shorter { IfSome result (λ rest. length rest.now < length octets.now) }
{
    match octets {
        [_, len, rest @ ..] if usize::from(*len) <= rest.len() => Some(&rest[usize::from(*len)..]),
        _ => None,
    }
}
