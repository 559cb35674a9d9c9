//! Messages in an entry: how many there are, and their records.

ghost use Rattle.std.specs.Prelude.{◌≡◌, ◌≤◌, ◌++◌, All, length, OnOk, OnErr};
ghost use Rattle.std.specs.List.{flat_map};
ghost use Rattle.exact_octets.specs.Growth.{Keeps};
ghost use Rattle.exact_octets.specs.Reading.{Gives};
ghost use Rattle.gate_entries.specs.Entry.{messages};
ghost use Rattle.gate_entries.specs.EntryReading.{parts_at as parts_front, messages_at as messages_front};
ghost use Rattle.gate_entries.specs.Limits.{most_messages};
ghost use Rattle.sms_record.specs.Record.{IsSms, sms_octets};

use crate::limits::MOST_MESSAGES;
use exact_octets::{Numbers, ReadFault, number_at};
use kn_base::{Items, Memory, Octets};
use sms_record::{Sms, put_sms, sms_at};
use std::alloc::Global;

/// So many messages, one after the other.
fn parts_at(alloc: Global, octets: &[u8], count: u64) -> Result<(Items<Sms>, &[u8]), ReadFault>
    ensures { Gives (λ x. (x.0, x.1.now)) result (parts_front count octets.now) }
{
    let mut parts = Items::new(alloc);
    let mut rest = octets;
    for _ in 0..count {
        let (sms, after) = sms_at(alloc, rest)?;
        parts.push(sms)?;
        rest = after;
    }
    Ok((parts, rest))
}

/// The messages behind their number, which is at least `least`.
#[tactic(auto, unfolding(crate::specs::EntryReading::messages_at))]
pub(crate) fn messages_at(
    alloc: Global,
    octets: &[u8],
    least: u64,
) -> Result<(Items<Sms>, &[u8]), ReadFault>
    ensures { Gives (λ x. (x.0, x.1.now)) result (messages_front least octets.now) }
{
    let (count, rest) = number_at(octets, 2, Numbers::from_to(least, MOST_MESSAGES))?;
    let (parts, rest) = parts_at(alloc, rest, count)?;
    Ok((parts, rest))
}

fn put_parts(into: &mut Octets, parts: &[Sms]) -> Result<(), Memory>
    requires { All IsSms parts.now }
    ensures ok { OnOk result (into.new ≡ into.old ++ flat_map sms_octets parts.now) }
    ensures err { OnErr result (Keeps into.old into.new) }
{
    for sms in parts {
        put_sms(into, sms)?;
    }
    Ok(())
}

/// Puts messages behind their number last.
pub(crate) fn put_messages(into: &mut Octets, parts: &[Sms]) -> Result<(), Memory>
    requires few { length parts.now ≤ most_messages }
    requires each { All IsSms parts.now }
    ensures ok { OnOk result (into.new ≡ into.old ++ messages parts.now) }
    ensures err { OnErr result (Keeps into.old into.new) }
{
    into.extend_from_slice(&(parts.len() as u16).to_be_bytes())?;
    put_parts(into, parts)
}
