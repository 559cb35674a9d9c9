//! By which link, with what reports, and on whose account.

ghost use Rattle.std.specs.Prelude.{◌≡◌, ◌++◌, IfOk, OnOk, OnErr};
ghost use Rattle.exact_octets.specs.Growth.{Keeps};
ghost use Rattle.exact_octets.specs.Reading.{Gives};
ghost use Rattle.sms_record.specs.Record.{IsSms, names};
ghost use Rattle.sms_record.specs.RecordReading.{names_of as names_from, names_in, names_at as names_front};

use crate::Sms;
use crate::limits::{MOST_NAME, MOST_URL};
use crate::record::pair::copy_pair;
use exact_octets::{Alphabet, Numbers, ReadFault, counted_at, put_long, put_short, short_at};
use kn_base::{Memory, Octets};
use std::alloc::Global;

/// The names that stand at the end of a record.
#[derive(Drop)]
pub(crate) struct Names {
    pub smsc: Octets,
    pub url: Octets,
    pub account: Octets,
    pub service: Octets,
}

fn names_of(
    alloc: Global,
    smsc: &[u8],
    url: &[u8],
    account: &[u8],
    service: &[u8],
) -> Result<Names, Memory>
    ensures { IfOk result (λ names. names ≡ names_from (smsc.now, (url.now, (account.now, service.now)))) }
{
    let (smsc, url) = copy_pair(alloc, smsc, url)?;
    let (account, service) = copy_pair(alloc, account, service)?;
    Ok(Names {
        smsc,
        url,
        account,
        service,
    })
}

/// The SMSC id, the URL, the account and the service at the front.
#[tactic(auto, unfolding(crate::specs::RecordReading::names_at))]
pub(crate) fn names_at(alloc: Global, octets: &[u8]) -> Result<(Names, &[u8]), ReadFault>
    ensures { Gives (λ x. (x.0, x.1.now)) result (names_front octets.now) }
{
    let (smsc, rest) = short_at(octets, 0, MOST_NAME, Alphabet::Any)?;
    let (url, rest) = counted_at(rest, 2, Numbers::from_to(0, MOST_URL), Alphabet::Any)?;
    let (account, rest) = short_at(rest, 0, MOST_NAME, Alphabet::Any)?;
    let (service, rest) = short_at(rest, 0, MOST_NAME, Alphabet::Any)?;
    let names = names_of(alloc, smsc, url, account, service)?;
    Ok((names, rest))
}

/// Puts the names of a message last.
pub(crate) fn put_names(into: &mut Octets, sms: &Sms) -> Result<(), Memory>
    requires { IsSms sms.now }
    ensures ok { OnOk result (into.new ≡ into.old ++ names sms.now) }
    ensures err { OnErr result (Keeps into.old into.new) }
{
    put_short(into, sms.smsc.as_slice())?;
    put_long(into, sms.url.as_slice())?;
    put_short(into, sms.account.as_slice())?;
    put_short(into, sms.service.as_slice())
}

/// The names of a message, in memory of their own.
pub(crate) fn copy_names(alloc: Global, sms: &Sms) -> Result<Names, Memory>
    ensures { IfOk result (λ copy. copy ≡ names_in sms.now) }
{
    names_of(
        alloc,
        sms.smsc.as_slice(),
        sms.url.as_slice(),
        sms.account.as_slice(),
        sms.service.as_slice(),
    )
}
