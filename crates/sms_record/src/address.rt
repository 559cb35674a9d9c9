//! Where a message comes from or goes to, and its octets in a record.

ghost use Rattle.std.specs.Prelude.{◌≡◌, ◌++◌, IfOk, OnOk, OnErr};
ghost use Rattle.exact_octets.specs.Growth.{Keeps};
ghost use Rattle.exact_octets.specs.Reading.{Gives};
ghost use Rattle.sms_record.specs.Record.{IsAddress, address};
ghost use Rattle.sms_record.specs.RecordReading.{address_at as address_front, address_of as address_from, address_text_at as address_text_front};

use crate::limits::{MOST_DIGITS, MOST_TEXT};
use exact_octets::{Alphabet, ReadFault, octet_at, put_short, short_at};
use kn_base::{Memory, Octets};
use std::alloc::Global;

/// The kind of a number.
const PLAIN: u8 = 0;
/// The kind of a number behind a `+`.
const PLUS: u8 = 1;
/// The kind of a text, which is the last one.
const TEXT: u8 = 2;

/// An address: a telephone number or a text.
#[derive(Drop)]
pub enum Address {
    /// 1 to 15 decimal digits, with or without a leading `+`.
    Number { plus: bool, digits: Octets },
    /// At most 64 octets.
    Text(Octets),
}

fn address_of(alloc: Global, kind: u8, text: &[u8]) -> Result<Address, Memory>
    ensures { IfOk result (λ address. address ≡ address_from kind text.now) }
{
    let text = Octets::from_slice(alloc, text)?;
    Ok(match kind {
        PLAIN => Address::Number {
            plus: false,
            digits: text,
        },
        PLUS => Address::Number {
            plus: true,
            digits: text,
        },
        _ => Address::Text(text),
    })
}

fn address_text_at(octets: &[u8], kind: u8) -> Result<(&[u8], &[u8]), ReadFault>
    ensures { Gives (λ x. (x.0.now, x.1.now)) result (address_text_front kind octets.now) }
{
    if kind < TEXT {
        short_at(octets, 1, MOST_DIGITS, Alphabet::Digit)
    } else {
        short_at(octets, 0, MOST_TEXT, Alphabet::Any)
    }
}

/// The address at the front.
#[tactic(auto, unfolding(crate::specs::RecordReading::address_at))]
pub(crate) fn address_at(alloc: Global, octets: &[u8]) -> Result<(Address, &[u8]), ReadFault>
    ensures { Gives (λ x. (x.0, x.1.now)) result (address_front octets.now) }
{
    let (kind, rest) = octet_at(octets, PLAIN, TEXT)?;
    let (text, rest) = address_text_at(rest, kind)?;
    let address = address_of(alloc, kind, text)?;
    Ok((address, rest))
}

/// Puts an address last.
pub(crate) fn put_address(into: &mut Octets, from_or_to: &Address) -> Result<(), Memory>
    requires { IsAddress from_or_to.now }
    ensures ok { OnOk result (into.new ≡ into.old ++ address from_or_to.now) }
    ensures err { OnErr result (Keeps into.old into.new) }
{
    match from_or_to {
        Address::Number { plus, digits } => {
            into.push(if *plus { PLUS } else { PLAIN })?;
            put_short(into, digits.as_slice())
        }
        Address::Text(text) => {
            into.push(TEXT)?;
            put_short(into, text.as_slice())
        }
    }
}

/// An equal address, in memory of its own.
///
/// # Errors
/// `Memory`.
pub fn copy_address(alloc: Global, address: &Address) -> Result<Address, Memory>
    ensures copy { IfOk result (λ copy. copy ≡ address.now) }
{
    match address {
        Address::Number { plus, digits } => {
            let digits = Octets::from_slice(alloc, digits.as_slice())?;
            Ok(Address::Number {
                plus: *plus,
                digits,
            })
        }
        Address::Text(text) => Ok(Address::Text(Octets::from_slice(alloc, text.as_slice())?)),
    }
}
