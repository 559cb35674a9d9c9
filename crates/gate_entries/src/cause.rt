//! Why a message won't be sent.

ghost use Rattle.std.specs.Prelude.{◌≡◌, ◌++◌, OnOk, OnErr};
ghost use Rattle.exact_octets.specs.Growth.{Keeps};
ghost use Rattle.exact_octets.specs.Reading.{Gives};
ghost use Rattle.gate_entries.specs.Entry.{cause_octets};
ghost use Rattle.gate_entries.specs.EntryReading.{cause_at as cause_front};

use exact_octets::{Numbers, ReadFault, number_at, octet_at};
use kn_base::{Memory, Octets};

/// The octet before a centre's code.
const CENTRE: u8 = 0;
/// The octet of a message that was too old.
const EXPIRED: u8 = 1;

/// The cause of a rejection.
#[derive(Clone, Copy)]
pub enum Cause {
    /// The centre refused it for good, with this code of its own.
    Centre(u32),
    /// The time in which it was worth sending has passed.
    Expired,
}

/// The cause at the front.
#[tactic(auto, unfolding(crate::specs::EntryReading::cause_at))]
pub(crate) fn cause_at(octets: &[u8]) -> Result<(Cause, &[u8]), ReadFault>
    ensures { Gives (λ x. (x.0, x.1.now)) result (cause_front octets.now) }
{
    let (kind, rest) = octet_at(octets, CENTRE, EXPIRED)?;
    if kind == EXPIRED {
        return Ok((Cause::Expired, rest));
    }
    let (code, rest) = number_at(rest, 4, Numbers::from_to(0, u64::from(u32::MAX)))?;
    Ok((Cause::Centre(code as u32), rest))
}

/// Puts a cause last.
pub(crate) fn put_cause(into: &mut Octets, cause: Cause) -> Result<(), Memory>
    ensures ok { OnOk result (into.new ≡ into.old ++ cause_octets cause) }
    ensures err { OnErr result (Keeps into.old into.new) }
{
    match cause {
        Cause::Centre(code) => {
            into.push(CENTRE)?;
            into.extend_from_slice(&code.to_be_bytes())
        }
        Cause::Expired => into.push(EXPIRED),
    }
}
