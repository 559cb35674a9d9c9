//! The numbers that say when a message counts.

ghost use Rattle.std.specs.Prelude.{◌≡◌, ◌++◌, OnOk, OnErr};
ghost use Rattle.exact_octets.specs.Growth.{Keeps};
ghost use Rattle.exact_octets.specs.Reading.{Gives};
ghost use Rattle.sms_record.specs.Record.{times};
ghost use Rattle.sms_record.specs.RecordReading.{times_at as times_front};

use crate::Sms;
use crate::limits::{LAST_TIME, MOST_MINUTES};
use exact_octets::{Numbers, ReadFault, number_at};
use kn_base::{Memory, Octets};

/// When a message counts: minutes, minutes, and Unix seconds.
#[derive(Clone, Copy)]
pub(crate) struct Times {
    pub validity: u32,
    pub deferred: u32,
    pub time: u64,
}

/// Validity, deferred and time at the front.
#[tactic(auto, unfolding(crate::specs::RecordReading::times_at))]
pub(crate) fn times_at(octets: &[u8]) -> Result<(Times, &[u8]), ReadFault>
    ensures { Gives (λ x. (x.0, x.1.now)) result (times_front octets.now) }
{
    let (validity, rest) = number_at(octets, 4, Numbers::from_to(0, MOST_MINUTES))?;
    let (deferred, rest) = number_at(rest, 4, Numbers::from_to(0, MOST_MINUTES))?;
    let (time, rest) = number_at(rest, 8, Numbers::from_to(0, LAST_TIME))?;
    Ok((
        Times {
            validity: validity as u32,
            deferred: deferred as u32,
            time,
        },
        rest,
    ))
}

/// Puts the times of a message last.
pub(crate) fn put_times(into: &mut Octets, sms: &Sms) -> Result<(), Memory>
    ensures ok { OnOk result (into.new ≡ into.old ++ times sms.now) }
    ensures err { OnErr result (Keeps into.old into.new) }
{
    into.extend_from_slice(&sms.validity.to_be_bytes())?;
    into.extend_from_slice(&sms.deferred.to_be_bytes())?;
    into.extend_from_slice(&sms.time.to_be_bytes())
}
