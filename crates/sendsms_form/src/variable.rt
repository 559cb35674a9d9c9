//! The forms that variables share: a number in a range, and octets, not too many. A variable is a row: the line that reads it has its name
//! and its range.

ghost use Rattle.std.specs.Prelude.{◌≡◌, ◌≤◌, ◌<◌, ◌^◌, Ok, Err, IfOk, IfErr, IfSome};
ghost use Rattle.sendsms_form.specs.Variables as spec;

use crate::Pair;
use crate::pairs::value;
use config_values::{Grammar, holds, number_of};
use http_text::{Answer, Spot};

/// The value of a variable, empty where it isn't there.
pub(crate) fn value_of<'a>(pairs: &'a [Pair], spot: Spot) -> &'a [u8]
    ensures { result.now ≡ spec.value_of spot pairs.now }
{
    value(pairs, spot.name())
}

/// The number of a variable, none where it has no value. `BadRequest` where it is outside its range.
pub(crate) fn number_given(
    pairs: &[Pair],
    spot: Spot,
    least: u64,
    most: u64,
) -> Result<Option<u32>, Answer>
    requires { most < 2 ^ 32 }
    ensures number { result ≡ spec.number_given spot least most pairs.now }
    ensures within { IfOk result (λ number. IfSome number (λ n. n ≤ most)) }
{
    let value = value_of(pairs, spot);
    if value.is_empty() {
        return Ok(None);
    }
    if !holds(Grammar::Number { least, most }, value) {
        return Err(Answer::BadRequest(spot));
    }
    Ok(Some(number_of(value) as u32))
}

/// The same, and 0 where it has no value.
pub(crate) fn number(pairs: &[Pair], spot: Spot, least: u64, most: u64) -> Result<u32, Answer>
    requires { most < 2 ^ 32 }
    ensures number { result ≡ spec.number spot least most pairs.now }
    ensures within { IfOk result (λ number. number ≤ most) }
{
    match number_given(pairs, spot, least, most)? {
        Some(number) => Ok(number),
        None => Ok(0),
    }
}

/// The octets of a variable. `BadRequest` where there are more than so many.
pub(crate) fn octets<'a>(pairs: &'a [Pair], spot: Spot, most: u64) -> Result<&'a [u8], Answer>
    ensures octets { IfOk result (λ octets. spec.octets spot most pairs.now ≡ Ok octets.now) }
    ensures refusal { IfErr result (λ answer. spec.octets spot most pairs.now ≡ Err answer) }
{
    let value = value_of(pairs, spot);
    if value.len() as u64 <= most {
        Ok(value)
    } else {
        Err(Answer::BadRequest(spot))
    }
}
