//! The entry of kind 06: arrivals were dealt with, and these are their replies.

ghost use Rattle.std.specs.Prelude.{◌≡◌, ◌≤◌, ◌++◌, length, OnOk, OnErr};
ghost use Rattle.std.specs.List.{flat_map};
ghost use Rattle.exact_octets.specs.Growth.{Keeps};
ghost use Rattle.exact_octets.specs.Numbers.{number};
ghost use Rattle.exact_octets.specs.Reading.{Gives};
ghost use Rattle.gate_entries.specs.Entry.{IsAnswered, answered_fields, numbers};
ghost use Rattle.gate_entries.specs.EntryReading.{numbers_of_count_at as numbers_of_count_front, arrivals_at as arrivals_front, answered_at as answered_front};
ghost use Rattle.gate_entries.specs.Limits.{most_arrivals};

use crate::fields::{number_at, put_number};
use crate::limits::MOST_ARRIVALS;
use crate::messages::{messages_at, put_messages};
use exact_octets::{Numbers, ReadFault};
use kn_base::{Items, Memory, Octets};
use sms_record::Sms;
use std::alloc::Global;

/// Arrivals that are ended, with the replies to them.
#[derive(Drop)]
pub struct Answered {
    /// The numbers of 1 to 255 arrivals.
    pub arrivals: Items<u64>,
    /// At most 5,000 messages, in the order in which they are to be sent.
    pub parts: Items<Sms>,
    /// When they were taken, in Unix seconds.
    pub time: u64,
}

/// So many numbers, one after the other.
fn numbers_of_count_at(
    alloc: Global,
    octets: &[u8],
    count: u64,
) -> Result<(Items<u64>, &[u8]), ReadFault>
    ensures { Gives (λ x. (x.0, x.1.now)) result (numbers_of_count_front count octets.now) }
{
    let mut arrivals = Items::new(alloc);
    let mut rest = octets;
    for _ in 0..count {
        let (arrival, after) = number_at(rest)?;
        arrivals.push(arrival)?;
        rest = after;
    }
    Ok((arrivals, rest))
}

/// The numbers of arrivals behind how many they are.
#[tactic(auto, unfolding(crate::specs::EntryReading::arrivals_at))]
fn arrivals_at(alloc: Global, octets: &[u8]) -> Result<(Items<u64>, &[u8]), ReadFault>
    ensures { Gives (λ x. (x.0, x.1.now)) result (arrivals_front octets.now) }
{
    let (count, rest) = exact_octets::number_at(octets, 2, Numbers::from_to(1, MOST_ARRIVALS))?;
    let (arrivals, rest) = numbers_of_count_at(alloc, rest, count)?;
    Ok((arrivals, rest))
}

/// What stands behind the kind.
#[tactic(auto, unfolding(crate::specs::EntryReading::answered_at))]
pub(crate) fn answered_at(alloc: Global, octets: &[u8]) -> Result<(Answered, &[u8]), ReadFault>
    ensures { Gives (λ x. (x.0, x.1.now)) result (answered_front octets.now) }
{
    let (arrivals, rest) = arrivals_at(alloc, octets)?;
    let (time, rest) = number_at(rest)?;
    let (parts, rest) = messages_at(alloc, rest, 0)?;
    let answered = Answered {
        arrivals,
        parts,
        time,
    };
    Ok((answered, rest))
}

fn put_all(into: &mut Octets, arrivals: &[u64]) -> Result<(), Memory>
    ensures ok { OnOk result (into.new ≡ into.old ++ flat_map (number 8) arrivals.now) }
    ensures err { OnErr result (Keeps into.old into.new) }
{
    for arrival in arrivals {
        put_number(into, *arrival)?;
    }
    Ok(())
}

/// Puts numbers behind how many they are last.
fn put_arrivals(into: &mut Octets, arrivals: &[u64]) -> Result<(), Memory>
    requires { length arrivals.now ≤ most_arrivals }
    ensures ok { OnOk result (into.new ≡ into.old ++ numbers arrivals.now) }
    ensures err { OnErr result (Keeps into.old into.new) }
{
    into.extend_from_slice(&(arrivals.len() as u16).to_be_bytes())?;
    put_all(into, arrivals)
}

/// Puts what stands behind the kind last.
pub(crate) fn put_answered(into: &mut Octets, answered: &Answered) -> Result<(), Memory>
    requires { IsAnswered answered.now }
    ensures ok { OnOk result (into.new ≡ into.old ++ answered_fields answered.now) }
    ensures err { OnErr result (Keeps into.old into.new) }
{
    put_arrivals(into, answered.arrivals.as_slice())?;
    put_number(into, answered.time)?;
    put_messages(into, answered.parts.as_slice())
}
