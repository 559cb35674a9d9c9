//! A message as the octets that it is kept as, and out of them.

ghost use Rattle.std.specs.Prelude.{◌≡◌, ◌++◌, IfOk, OnOk, OnErr};
ghost use Rattle.exact_octets.specs.Fronts.{ReadsFirst};
ghost use Rattle.exact_octets.specs.Growth.{Keeps};
ghost use Rattle.exact_octets.specs.Reading.{Gives};
ghost use Rattle.sms_record.specs.Record.{IsSms, sms_octets};
ghost use Rattle.sms_record.specs.RecordReading.{sms_of as sms_from, sms_at as sms_front};

mod contents;
mod heading;
mod marks;
mod names;
mod pair;
mod times;

use crate::{RecordFault, Sms};
use contents::{Contents, contents_at, copy_contents, put_contents};
use exact_octets::{ReadFault, told_first};
use heading::{Heading, copy_heading, heading_at, put_heading};
use kn_base::{Memory, Octets};
use std::alloc::Global;

fn sms_of(heading: Heading, contents: Contents) -> Sms
    ensures { result ≡ sms_from heading contents }
{
    Sms {
        sender: heading.sender,
        receiver: heading.receiver,
        coding: heading.marks.coding,
        class: heading.marks.class,
        udh: contents.udh,
        body: contents.body,
        total: heading.marks.total,
        part: heading.marks.part,
        smsc: contents.names.smsc,
        validity: heading.times.validity,
        deferred: heading.times.deferred,
        mask: heading.marks.mask,
        url: contents.names.url,
        account: contents.names.account,
        service: contents.names.service,
        charset: heading.marks.charset,
        time: heading.times.time,
    }
}

/// The message at the front, and what stands behind it, for those whose octets hold messages among other things
/// (`sms_reads` of `proofs/Messages.antt` is its law).
#[tactic(auto, unfolding(crate::specs::RecordReading::sms_at))]
pub fn sms_at(alloc: Global, octets: &[u8]) -> Result<(Sms, &[u8]), ReadFault>
    ensures { Gives (λ x. (x.0, x.1.now)) result (sms_front octets.now) }
{
    let (heading, rest) = heading_at(alloc, octets)?;
    let (contents, rest) = contents_at(alloc, rest, heading.marks.coding)?;
    Ok((sms_of(heading, contents), rest))
}

/// Puts the record of a message last, or a front of it: after `Memory` the old octets still stand first.
pub fn put_sms(into: &mut Octets, sms: &Sms) -> Result<(), Memory>
    requires { IsSms sms.now }
    ensures ok { OnOk result (into.new ≡ into.old ++ sms_octets sms.now) }
    ensures err { OnErr result (Keeps into.old into.new) }
{
    put_heading(into, sms)?;
    put_contents(into, sms)
}

/// The message whose record stands at the front of the octets, and how many octets its record has. Octets may follow it
/// (docs/FORMATS.md, "Records").
///
/// `Short` where the octets are a proper front of a record. `Malformed { at }` where the first `at` octets are a proper
/// front of a record and the first `at + 1` begin none. `Memory`.
pub fn read_sms(alloc: Global, octets: &[u8]) -> Result<(Sms, usize), RecordFault>
    ensures { ReadsFirst IsSms sms_octets octets.now result }
{
    told_first(octets, sms_at(alloc, octets))
}

/// Puts the record of a message last (docs/FORMATS.md, "Records"). After `Memory` nothing has changed.
pub fn write_sms(into: &mut Octets, sms: &Sms) -> Result<(), Memory>
    requires { IsSms sms.now }
    ensures ok { OnOk result (into.new ≡ into.old ++ sms_octets sms.now) }
    ensures err { OnErr result (into.new ≡ into.old) }
{
    let len = into.len();
    let put = put_sms(into, sms);
    if put.is_err() {
        into.truncate(len);
    }
    put
}

/// An equal message, in memory of its own.
pub fn copy_sms(alloc: Global, sms: &Sms) -> Result<Sms, Memory>
    ensures { IfOk result (λ copy. copy ≡ sms.now) }
{
    let heading = copy_heading(alloc, sms)?;
    let contents = copy_contents(alloc, sms)?;
    Ok(sms_of(heading, contents))
}
