//! The fields that several kinds of entries have.

ghost use Rattle.std.specs.Prelude.{◌≡◌, ◌++◌, IfOk, OnOk, OnErr};
ghost use Rattle.exact_octets.specs.Growth.{Keeps};
ghost use Rattle.exact_octets.specs.Numbers.{number};
ghost use Rattle.exact_octets.specs.Reading.{Gives};
ghost use Rattle.exact_octets.specs.Spelling.{long};
ghost use Rattle.gate_entries.specs.Entry.{IsText, ids};
ghost use Rattle.gate_entries.specs.EntryReading.{number_at as number_front, text_at as text_front, ids_at as ids_front};

use crate::limits::MOST_TEXT;
use exact_octets::{Alphabet, Numbers, ReadFault, counted_at};
use kn_base::{Memory, Octets};
use std::alloc::Global;

/// Any number of eight octets.
pub(crate) fn number_at(octets: &[u8]) -> Result<(u64, &[u8]), ReadFault>
    ensures { Gives (λ x. (x.0, x.1.now)) result (number_front octets.now) }
{
    exact_octets::number_at(octets, 8, Numbers::from_to(0, u64::MAX))
}

/// Puts a number of eight octets last. After `Memory` nothing has changed.
pub(crate) fn put_number(into: &mut Octets, value: u64) -> Result<(), Memory>
    ensures ok { OnOk result (into.new ≡ into.old ++ number 8 value) }
    ensures err { OnErr result (into.new ≡ into.old) }
{
    into.extend_from_slice(&value.to_be_bytes())
}

/// The octets behind a length of two.
pub(crate) fn text_at(alloc: Global, octets: &[u8]) -> Result<(Octets, &[u8]), ReadFault>
    ensures { Gives (λ x. (x.0, x.1.now)) result (text_front octets.now) }
{
    let (text, rest) = counted_at(octets, 2, Numbers::from_to(0, MOST_TEXT), Alphabet::Any)?;
    let text = Octets::from_slice(alloc, text)?;
    Ok((text, rest))
}

/// An SMSC id and a foreign id.
pub(crate) fn ids_at(alloc: Global, octets: &[u8]) -> Result<((Octets, Octets), &[u8]), ReadFault>
    ensures { Gives (λ x. (x.0, x.1.now)) result (ids_front octets.now) }
{
    let (smsc, rest) = text_at(alloc, octets)?;
    let (foreign, rest) = text_at(alloc, rest)?;
    Ok(((smsc, foreign), rest))
}

/// Puts an SMSC id and a foreign id last.
pub(crate) fn put_ids(into: &mut Octets, smsc: &[u8], foreign: &[u8]) -> Result<(), Memory>
    requires { IsText smsc.now × IsText foreign.now }
    ensures ok { OnOk result (into.new ≡ into.old ++ ids smsc.now foreign.now) }
    ensures err { OnErr result (Keeps into.old into.new) }
{
    exact_octets::put_long(into, smsc)?;
    exact_octets::put_long(into, foreign)
}
