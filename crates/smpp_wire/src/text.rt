//! Texts that end with an octet 00 (SMPP 3.4, 3.1, C-Octet String).

ghost use Rattle.std.specs.Prelude.{◌≡◌, ◌<◌, ◌+◌, ◌-◌, ◌^◌, ◌++◌, length, true, IfOk, IfErr, OnOk, OnErr};
ghost use Rattle.exact_octets.specs.Growth.{Keeps};
ghost use Rattle.exact_octets.specs.Reading.{Gives, IsOfOctets};
ghost use Rattle.smpp_wire.specs.Grammar.{ended};
ghost use Rattle.smpp_wire.specs.Room.{up_to as up_to_in_specs, times as times_in_specs, fits, is_size, may_end as may_end_in_specs, may_go_on as may_go_on_in_specs};
ghost use Rattle.smpp_wire.specs.Reading.{text_at as text_front};

use crate::limits::EMPTY_TLV_LEN;
use crate::room::Room;
use exact_octets::ReadFault;
use kn_base::{Memory, Octets};

/// How many octets a text may have, with the 00 at its end: one, or a number between two.
#[derive(Clone, Copy)]
pub(crate) struct Sizes {
    pub least: u8,
    pub most: u8,
}

impl Sizes {
    /// At most so many.
    pub(crate) fn up_to(most: u8) -> Sizes
        ensures { result ≡ up_to_in_specs most }
    {
        Sizes { least: 1, most }
    }

    /// Those of a time: one or 17.
    pub(crate) fn times() -> Sizes
        ensures { result ≡ times_in_specs }
    {
        Sizes {
            least: 17,
            most: 17,
        }
    }

    fn has(self, size: usize) -> bool
        ensures { result ≡ is_size self size }
    {
        size == 1 || (usize::from(self.least) <= size && size <= usize::from(self.most))
    }
}

/// Whether the 00 may stand behind so many octets of a text, where `left` are left for it and what stands behind it.
fn may_end(sizes: Sizes, room: Room, left: usize, before: usize) -> bool
    requires { before < 2 ^ 63 }
    ensures { result ≡ may_end_in_specs sizes room left before }
{
    let size = before + 1;
    sizes.has(size) && size <= left && room.fits(left - size)
}

/// Whether another octet may stand there.
fn may_go_on(sizes: Sizes, room: Room, left: usize, before: usize) -> bool
    requires { before < 2 ^ 63 }
    ensures { result ≡ may_go_on_in_specs sizes room left before }
{
    let next = before + 2;
    let longest = usize::from(sizes.most);
    if next > longest {
        return false;
    }
    let size = usize::from(sizes.least).max(next);
    match room {
        Room::From(least) => size + usize::from(least) <= left,
        Room::Between(least, most) => {
            size + usize::from(least) <= left && left <= longest + usize::from(most)
        }
        Room::Tlvs => (size <= left && left <= longest) || size + EMPTY_TLV_LEN <= left,
    }
}

/// A text, and what stands behind its 00, where `left` octets are left for both and `room` says how many may stand behind it.
pub(crate) fn text_at(
    octets: &[u8],
    sizes: Sizes,
    room: Room,
    left: usize,
) -> Result<(&[u8], &[u8]), ReadFault>
    ensures gives { Gives (λ x. (x.0.now, x.1.now)) result (text_front sizes room left octets.now) }
    ensures room { IfOk result (λ x. fits room (left - (length x.0.now + 1)) ≡ true) }
    ensures no_memory { IfErr result IsOfOctets }
{
    for (index, octet) in octets.iter().enumerate() {
        if *octet == 0 {
            if may_end(sizes, room, left, index) {
                return Ok((&octets[..index], &octets[index + 1..]));
            }
            return Err(ReadFault::Malformed {
                left: octets.len() - index,
            });
        }
        if !may_go_on(sizes, room, left, index) {
            return Err(ReadFault::Malformed {
                left: octets.len() - index,
            });
        }
    }
    Err(ReadFault::Short)
}

/// Puts a text and its 00 last. After `Memory` the old octets still stand first.
pub(crate) fn put_text(into: &mut Octets, text: &[u8]) -> Result<(), Memory>
    ensures ok { OnOk result (into.new ≡ into.old ++ ended text.now) }
    ensures err { OnErr result (Keeps into.old into.new) }
{
    into.extend_from_slice(text)?;
    into.push(0)
}
