//! The unit of a payload, as octets: read at the front, and written whole.

ghost use Rattle.std.specs.Prelude.{◌≡◌, ◌++◌, ◌∷◌, [], IfOk, MatchOption};
ghost use Rattle.exact_octets.specs.Reading.{Gives};
ghost use Rattle.store_journal.specs.Area.{IsPayload, unit, unit_at as unit_front};
ghost use Rattle.store_journal.specs.Opening.{IsFirstUnit, IsNoUnit};

use exact_octets::{Alphabet, Numbers, ReadFault, counted_at, octet_at};
use kn_base::Memory;
use std::alloc::Global;

/// The gate of a unit that counts.
pub const OPEN: u8 = 1;

/// The gate that ends the payloads.
pub const CLOSED: u8 = 0;

/// The greatest length of a payload, in octets.
const GREATEST: u64 = 16_777_216;

/// How many octets the length of a payload is written in.
const LENGTH: usize = 4;

// The payload of the unit with which octets begin, and what stands behind the unit.
#[tactic(auto, unfolding(crate::specs::Area::unit_at))]
fn unit_at(octets: &[u8]) -> Result<(&[u8], &[u8]), ReadFault>
    ensures { Gives (λ x. (x.0.now, x.1.now)) result (unit_front octets.now) }
{
    let (_gate, rest) = octet_at(octets, OPEN, OPEN)?;
    let sizes = Numbers::from_to(1, GREATEST);
    let (payload, rest) = counted_at(rest, LENGTH, sizes, Alphabet::Any)?;
    Ok((payload, rest))
}

/// The payload of the unit with which octets begin, if they begin with one, and what stands behind the unit.
pub fn first_unit(octets: &[u8]) -> Result<Option<(&[u8], &[u8])>, Memory>
    ensures { IfOk result (λ found. MatchOption found (IsNoUnit octets.now) (λ x. IsFirstUnit octets.now x.0.now x.1.now)) }
{
    match unit_at(octets) {
        Ok(found) => Ok(Some(found)),
        Err(ReadFault::Short) => Ok(None),
        Err(ReadFault::Malformed { .. }) => Ok(None),
        Err(ReadFault::Memory) => Err(Memory),
    }
}

/// A payload in its unit, and the closed gate behind it.
pub fn unit_and_gate(alloc: Global, payload: &[u8]) -> Result<Vec<u8>, Memory>
    requires { IsPayload payload.now }
    ensures { IfOk result (λ octets. octets.items ≡ unit payload.now ++ 0 ∷ []) }
{
    let mut octets = Vec::with_capacity(alloc, payload.len() + 6)?;
    octets.push(OPEN)?;
    octets.extend_from_slice(&(payload.len() as u32).to_be_bytes())?;
    octets.extend_from_slice(payload)?;
    octets.push(CLOSED)?;
    Ok(octets)
}
