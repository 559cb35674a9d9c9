//! To whom a message goes, and from whom it comes.

ghost use Rattle.std.specs.Prelude.{◌≡◌, ◌⊎◌, Ok, Err, IfOk, IfErr, length, filter, map};
ghost use Rattle.std.specs.List.{list_all};
ghost use Rattle.config_values.specs.Values.{has_plus, behind_plus};
ghost use Rattle.sendsms_form.specs.Form as form;
ghost use Rattle.sendsms_form.specs.Variables as spec;
ghost use Rattle.sendsms_form.specs.Variables.{RefusesAs};

use crate::Pair;
use crate::variable::value_of;
use config_groups::User;
use config_values::{Grammar, holds, sender_of as sender_by_value};
use http_text::{Answer, Spot};
use kn_base::{Items, Memory, Octets};
use sms_record::limits::MOST_DIGITS;
use sms_record::{Address, copy_address};
use std::alloc::Global;

/// The most receivers of a request.
const MOST_RECEIVERS: usize = 50;

/// Reads `to`: the receivers of a form.
pub(crate) fn receivers_of(alloc: Global, pairs: &[Pair]) -> Result<Items<Address>, Answer>
    ensures ok { IfOk result (λ receivers. form.receivers_of pairs.now ≡ Ok receivers) }
    ensures err { RefusesAs (form.receivers_of pairs.now) result }
{
    let value = value_of(pairs, Spot::To);
    if !are_receivers(value) {
        return Err(Answer::BadRequest(Spot::To));
    }
    Ok(numbers_of(alloc, value)?)
}

/// Reads `from`: the sender of a user's form. `common` is the sender of messages that name none.
pub(crate) fn sender_of(
    alloc: Global,
    user: &User,
    common: &Option<Address>,
    pairs: &[Pair],
) -> Result<Address, Answer>
    ensures ok { IfOk result (λ sender. form.sender_of user.now common.now pairs.now ≡ Ok sender) }
    ensures err { RefusesAs (form.sender_of user.now common.now pairs.now) result }
{
    let given = value_of(pairs, Spot::From);
    match sender_by(
        alloc,
        &user.faked_sender,
        given,
        &user.default_sender,
        common,
    )? {
        Some(sender) => Ok(sender),
        None => Err(Answer::BadRequest(Spot::From)),
    }
}

fn are_receivers(value: &[u8]) -> bool
    ensures { result ≡ spec.are_receivers value.now }
{
    let count = count_words(value);
    1 <= count && count <= MOST_RECEIVERS && are_numbers(value)
}

fn count_words(value: &[u8]) -> usize
    ensures { result ≡ length (spec.words value.now) }
{
    value
        .split(|&octet| octet == b' ')
        .filter(|word| !word.is_empty())
        .count()
}

fn are_numbers(value: &[u8]) -> bool
    ensures { result ≡ list_all spec.is_number (spec.words value.now) }
{
    value
        .split(|&octet| octet == b' ')
        .filter(|word| !word.is_empty())
        .all(|word| is_number(word))
}

// Whether a word is a number: an optional `+` and 1 to 15 digits.
fn is_number(word: &[u8]) -> bool
    ensures { result ≡ spec.is_number word.now }
{
    let (_, digits) = cut_plus(word);
    let most = usize::from(MOST_DIGITS);
    holds(Grammar::Digits { most }, digits)
}

// Whether a `+` stands first, and what stands behind it.
fn cut_plus(word: &[u8]) -> (bool, &[u8])
    ensures plus { result.0 ≡ has_plus word.now }
    ensures rest { result.1.now ≡ behind_plus word.now }
{
    match word {
        [b'+', rest @ ..] => (true, rest),
        _ => (false, word),
    }
}

// The numbers of a value that is known to hold numbers.
fn numbers_of(alloc: Global, value: &[u8]) -> Result<Items<Address>, Memory>
    ensures { IfOk result (λ numbers. numbers ≡ map spec.address_of (spec.words value.now)) }
{
    let mut numbers = Items::new(alloc);
    for word in value.split(|&octet| octet == b' ') {
        if !word.is_empty() {
            numbers.push(number_of(alloc, word)?)?;
        }
    }
    Ok(numbers)
}

fn number_of(alloc: Global, word: &[u8]) -> Result<Address, Memory>
    ensures { IfOk result (λ number. number ≡ spec.address_of word.now) }
{
    let (plus, digits) = cut_plus(word);
    let digits = Octets::from_slice(alloc, digits)?;
    Ok(Address::Number { plus, digits })
}

// The sender: the faked one, or else what is given, or else the user's own or the one of all.
fn sender_by(
    alloc: Global,
    faked: &Option<Address>,
    given: &[u8],
    own: &Option<Address>,
    common: &Option<Address>,
) -> Result<Option<Address>, Memory>
    ensures { IfOk result (λ sender. sender ≡ spec.sender_by faked.now given.now own.now common.now) }
{
    if let Some(faked) = faked {
        return Ok(Some(copy_address(alloc, faked)?));
    }
    if !given.is_empty() {
        return sender_by_value(alloc, given);
    }
    match own {
        Some(own) => Ok(Some(copy_address(alloc, own)?)),
        None => copy_sender(alloc, common),
    }
}

fn copy_sender(alloc: Global, sender: &Option<Address>) -> Result<Option<Address>, Memory>
    ensures { IfOk result (λ copy. copy ≡ sender.now) }
{
    match sender {
        Some(sender) => Ok(Some(copy_address(alloc, sender)?)),
        None => Ok(None),
    }
}
