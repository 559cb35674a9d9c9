//! The validity_period of a message (SMPP 3.4, 5.2.16 and 7.1.1).

ghost use Rattle.std.specs.Prelude.{◌≡◌, ◌<◌, ◌≤◌, ◌^◌, IfOk, ◌++◌, OnOk};
ghost use Rattle.smpp_link.specs.Saying as spec;

use kn_base::{Memory, Octets};
use link_core::minutes_left;
use std::alloc::Global;

/// How many minutes an hour has.
const HOUR: u64 = 60;
/// How many minutes a day has.
const DAY: u64 = 1_440;

/// Puts two decimal digits last.
fn put_two_digits(into: &mut Octets, number: u64) -> Result<(), Memory>
    requires { number < 100 }
    ensures { OnOk result (into.new ≡ into.old ++ spec.two_digits number) }
{
    into.extend_from_slice(&[b'0' + (number / 10) as u8, b'0' + (number % 10) as u8])
}

/// So many minutes from now, in days, hours and minutes.
fn period_of(alloc: Global, minutes: u64) -> Result<Octets, Memory>
    requires { minutes ≤ 43200 }
    ensures { IfOk result (λ period. period ≡ spec.period_of minutes) }
{
    let mut period = Octets::from_slice(alloc, b"0000")?;
    put_two_digits(&mut period, minutes / DAY)?;
    put_two_digits(&mut period, minutes % DAY / HOUR)?;
    put_two_digits(&mut period, minutes % HOUR)?;
    period.extend_from_slice(b"00000R")?;
    Ok(period)
}

/// For how long a message is still worth sending, or nothing where no end was asked for.
pub(crate) fn validity_of(
    alloc: Global,
    time: u64,
    validity: u32,
    now: u64,
) -> Result<Octets, Memory>
    requires asked { time ≤ now }
    requires early { now < 2 ^ 37 }
    requires most { validity ≤ 43200 }
    ensures { IfOk result (λ period. period ≡ spec.validity_of time validity now) }
{
    if validity == 0 {
        return Ok(Octets::new(alloc));
    }
    period_of(alloc, minutes_left(time, validity, now))
}
