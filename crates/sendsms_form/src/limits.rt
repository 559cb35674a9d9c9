//! How a user's messages may be split.

ghost use Rattle.std.specs.Prelude.{◌≡◌, IfOk, IsUtf8};
ghost use Rattle.concat_split.specs.Parts.{AreLimits};
ghost use Rattle.config_groups.specs.Ranges.{IsUser};
ghost use Rattle.sendsms_form.specs.Variables.{body_in};
ghost use Rattle.sendsms_form.specs.Messages as spec;

use crate::body_of;
use concat_split::Limits;
use config_groups::User;
use kn_base::{Charset, Memory, Octets};
use sms_record::Coding;
use std::alloc::Global;

/// How a user's messages of a coding may be split.
pub(crate) fn limits_of(alloc: Global, user: &User, coding: Coding) -> Result<Limits, Memory>
    requires in_range { IsUser user.now }
    ensures limits { IfOk result (λ limits. limits ≡ spec.limits_of user.now coding) }
{
    let (split_chars, suffix) = texts_in(
        alloc,
        coding,
        user.split_chars.as_slice(),
        user.split_suffix.as_slice(),
    )?;
    let (header, footer) = texts_in(
        alloc,
        coding,
        user.header.as_slice(),
        user.footer.as_slice(),
    )?;
    Ok(Limits {
        parts: user.max_messages as u8,
        concatenate: user.concatenation,
        split_chars,
        suffix,
        header,
        footer,
    })
}

// Two texts of the configuration in a coding.
fn texts_in(
    alloc: Global,
    coding: Coding,
    first: &[u8],
    second: &[u8],
) -> Result<(Octets, Octets), Memory>
    requires first { IsUtf8 first.now }
    requires second { IsUtf8 second.now }
    ensures { IfOk result (λ texts. texts ≡ (body_in coding Charset.Utf8 first.now, body_in coding Charset.Utf8 second.now)) }
{
    let first = text_in(alloc, coding, first)?;
    let second = text_in(alloc, coding, second)?;
    Ok((first, second))
}

// A text of the configuration in a coding.
fn text_in(alloc: Global, coding: Coding, text: &[u8]) -> Result<Octets, Memory>
    requires utf8 { IsUtf8 text.now }
    ensures { IfOk result (λ octets. octets ≡ body_in coding Charset.Utf8 text.now) }
{
    match body_of(alloc, coding, Charset::Utf8, text)? {
        Some(octets) => Ok(octets),
        None => unreachable!(),
    }
}
