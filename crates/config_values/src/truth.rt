//! A value that is a truth.

ghost use Rattle.std.specs.Prelude.{◌≡◌};
ghost use Rattle.config_values.specs.Values as spec;

/// What a value says as a truth: `true`, `yes`, `on` and `1`, or `false`, `no`, `off` and `0`, in lower case. `None` of any other.
/// It takes no memory.
pub fn truth_of(value: &[u8]) -> Option<bool>
    ensures { result ≡ spec.truth_of value.now }
{
    match value {
        b"true" | b"yes" | b"on" | b"1" => Some(true),
        b"false" | b"no" | b"off" | b"0" => Some(false),
        _ => None,
    }
}
