//! The target of a request: its path and its query.

ghost use Rattle.std.specs.Prelude.{◌≡◌};
ghost use Rattle.sendsms_http.specs.Target as spec;

/// Whether the target begins with `/`.
pub(crate) fn is_path(target: &[u8]) -> bool
    ensures { result ≡ spec.is_path target.now }
{
    matches!(target, [b'/', ..])
}

/// What stands before the first `?` of a target, and what stands behind it, which is nothing where there is none.
pub(crate) fn cut_target(target: &[u8]) -> (&[u8], &[u8])
    ensures path { result.0.now ≡ spec.path_of target.now }
    ensures query { result.1.now ≡ spec.query_of target.now }
{
    for (at, octet) in target.iter().enumerate() {
        if *octet == b'?' {
            return (&target[..at], &target[at + 1..]);
        }
    }
    (target, &[])
}
