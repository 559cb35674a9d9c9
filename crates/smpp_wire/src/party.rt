//! An address: its type of number, its numbering plan, its text (SMPP 3.4, 5.2.5 to 5.2.9).

ghost use Rattle.std.specs.Prelude.{◌≡◌, ◌<◌, ◌^◌, ◌++◌, length, IfOk, IfErr, OnOk, OnErr};
ghost use Rattle.exact_octets.specs.Growth.{Keeps};
ghost use Rattle.exact_octets.specs.Reading.{Gives, IsOfOctets};
ghost use Rattle.smpp_wire.specs.Grammar.{party};
ghost use Rattle.smpp_wire.specs.Parts.{party_tuple};
ghost use Rattle.smpp_wire.specs.Reading.{two_at as two_front, party_at as party_front};

use crate::room::Room;
use crate::text::{Sizes, put_text, text_at};
use exact_octets::{ReadFault, any_octet_at};
use kn_base::{Memory, Octets};

/// An address.
#[derive(Clone, Copy)]
pub(crate) struct Party<'a> {
    pub ton: u8,
    pub npi: u8,
    pub address: &'a [u8],
}

/// Two octets.
pub(crate) fn two_at(octets: &[u8]) -> Result<((u8, u8), &[u8]), ReadFault>
    ensures gives { Gives (λ x. (x.0, x.1.now)) result (two_front octets.now) }
    ensures no_memory { IfErr result IsOfOctets }
{
    let (first, rest) = any_octet_at(octets)?;
    let (second, rest) = any_octet_at(rest)?;
    Ok(((first, second), rest))
}

/// An address of at most 20 octets, where `room` says how many may stand behind it.
#[tactic(auto, unfolding(crate::specs::Reading::party_at))]
pub(crate) fn party_at(octets: &[u8], room: Room, left: usize) -> Result<(Party, &[u8]), ReadFault>
    ensures gives { Gives (λ x. (party_tuple x.0, x.1.now)) result (party_front room left octets.now) }
    ensures short { IfOk result (λ x. length x.0.address.now < 2 ^ 63) }
    ensures no_memory { IfErr result IsOfOctets }
{
    let ((ton, npi), rest) = two_at(octets)?;
    let (address, rest) = text_at(rest, Sizes::up_to(21), room, left.saturating_sub(2))?;
    Ok((Party { ton, npi, address }, rest))
}

/// Puts an address last. After `Memory` the old octets still stand first.
pub(crate) fn put_party(into: &mut Octets, from_or_to: &Party) -> Result<(), Memory>
    ensures ok { OnOk result (into.new ≡ into.old ++ party from_or_to.now.ton from_or_to.now.npi from_or_to.now.address.now) }
    ensures err { OnErr result (Keeps into.old into.new) }
{
    into.extend_from_slice(&[from_or_to.ton, from_or_to.npi])?;
    put_text(into, from_or_to.address)
}
