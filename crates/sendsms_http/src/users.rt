//! The user of a request.

ghost use Rattle.std.specs.Prelude.{◌≡◌, option_copied};
ghost use Rattle.std.specs.List.{find};
ghost use Rattle.sendsms_http.specs.Users as spec;

use config_groups::User;
use sendsms_form::{Pair, value};

/// The first user with the name and the password that a request gives.
pub(crate) fn user_of<'a>(users: &'a [User], pairs: &[Pair]) -> Option<&'a User>
    ensures { option_copied result ≡ spec.user_of users.now pairs.now }
{
    let name = first_of(value(pairs, b"username"), value(pairs, b"user"));
    let password = first_of(value(pairs, b"password"), value(pairs, b"pass"));
    users.iter().find(|user| user.username.as_slice() == name
        && user.password.as_slice() == password)
}

// The first octets that are some.
fn first_of<'a>(first: &'a [u8], second: &'a [u8]) -> &'a [u8]
    ensures { result.now ≡ spec.first_of first.now second.now }
{
    if first.is_empty() { second } else { first }
}
