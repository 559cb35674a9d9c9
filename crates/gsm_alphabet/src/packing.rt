//! Septets packed into octets, and unpacked (GSM 03.38 6.1.2.1), by the few bits that wait between two octets.

ghost use Rattle.std.specs.Prelude.{◌≡◌, ℕ, ◌+◌, ◌*◌, ◌/◌, ◌^◌, ◌<◌, ◌≤◌, length, drop, All, IfOk, OnOk};
ghost use Rattle.gsm_alphabet.specs.Packing.{number_of, octets_for, packed, unpacked};
ghost use Rattle.gsm_alphabet.specs.Bits.{bits_then, completed};

use crate::bits::Waiting;
use kn_base::{Memory, Octets};
use std::alloc::Global;

/// The octets of septets (GSM 03.38 6.1.2.1): the first septet stands in the low seven bits of the first octet,
/// each next one in the bits above, and the bits left over at the end are 0.
pub fn pack(alloc: Global, septets: &[u8]) -> Result<Octets, Memory>
    requires { All (λ septet. septet < 128) septets.now }
    ensures octets { IfOk result (λ octets. octets ≡ packed septets.now) }
    ensures len { IfOk result (λ octets. length octets ≡ octets_for (length septets.now)) }
    ensures left_over { IfOk result (λ octets. number_of 256 octets < 2 ^ (7 * length septets.now)) }

    // The septets come back.
    ensures back { IfOk result (λ octets. unpacked octets (length septets.now) ≡ septets.now) }
{
    let mut octets = Octets::new(alloc);
    let mut waiting = Waiting::none();
    for septet in septets {
        waiting = put_septet(&mut octets, waiting, *septet)?;
    }
    put_last(&mut octets, waiting)?;
    Ok(octets)
}

/// The first `count` septets of packed octets (GSM 03.38 6.1.2.1), one in each octet of the answer.
pub fn unpack(alloc: Global, packed: &[u8], count: usize) -> Result<Octets, Memory>
    requires { 7 * count ≤ 8 * length packed.now }
    ensures septets { IfOk result (λ septets. septets ≡ unpacked packed.now count) }
    ensures len { IfOk result (λ septets. length septets ≡ count) }
    ensures small { IfOk result (λ septets. All (λ septet. septet < 128) septets) }
{
    let mut septets = Octets::new(alloc);
    let mut waiting = Waiting::none();
    let mut next = 0;
    while septets.len() < count {
        let taken = take_septet(waiting, packed, next);
        septets.push(taken.septet)?;
        waiting = taken.waiting;
        next = taken.next;
    }
    Ok(septets)
}

// A septet, and where its octets are read on.
#[derive(Clone, Copy)]
struct Taken {
    septet: u8,
    waiting: Waiting,
    next: usize,
}

// Puts a septet behind the bits that wait, and an octet out where eight bits are there.
fn put_septet(octets: &mut Octets, waiting: Waiting, septet: u8) -> Result<Waiting, Memory>
    requires { septet < 128 }
    ensures completed { IfOk result (λ after. (total rest : ℕ) → length octets.new ≤ total
        → completed 256 total octets.new (bits_then after rest)
        ≡ completed 256 total octets.old (bits_then waiting (septet + 128 * rest))) }
    ensures count { IfOk result (λ after. 8 * length octets.new + after.count ≡ 8 * length octets.old + waiting.count + 7) }
{
    let bits = waiting.bits + (u16::from(septet) << waiting.count);
    if waiting.count == 0 {
        return Ok(Waiting { bits, count: 7 });
    }
    octets.push((bits % 256) as u8)?;
    Ok(Waiting {
        bits: bits / 256,
        count: waiting.count - 1,
    })
}

// Puts out the octet of the bits that still wait, if any do.
fn put_last(octets: &mut Octets, waiting: Waiting) -> Result<(), Memory>
    ensures { OnOk result (octets.new ≡ completed 256 (length octets.old + (waiting.count + 7) / 8) octets.old (bits_then waiting 0)) }
{
    if waiting.count == 0 {
        return Ok(());
    }
    octets.push(waiting.bits as u8)
}

// Takes a septet off the bits that wait, with the octet at `next` behind them where they are too few.
fn take_septet(waiting: Waiting, packed: &[u8], next: usize) -> Taken
    requires { waiting.count < 7 → next < length packed.now }
    ensures septet { result.septet < 128 }
    ensures bits { result.septet + 128 * bits_then result.waiting (number_of 256 (drop result.next packed.now))
        ≡ bits_then waiting (number_of 256 (drop next packed.now)) }
    ensures count { result.waiting.count + 7 + 8 * next ≡ waiting.count + 8 * result.next }
{
    if waiting.count == 7 {
        return Taken {
            septet: waiting.bits as u8,
            waiting: Waiting::none(),
            next,
        };
    }
    let bits = waiting.bits + (u16::from(packed[next]) << waiting.count);
    Taken {
        septet: (bits % 128) as u8,
        waiting: Waiting {
            bits: bits / 128,
            count: waiting.count + 1,
        },
        next: next + 1,
    }
}
