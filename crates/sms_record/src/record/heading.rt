//! What stands before the fields of any length: from whom and to whom, the marks and the times.

ghost use Rattle.std.specs.Prelude.{◌≡◌, ◌++◌, IfOk, OnOk, OnErr};
ghost use Rattle.exact_octets.specs.Growth.{Keeps};
ghost use Rattle.exact_octets.specs.Reading.{Gives};
ghost use Rattle.sms_record.specs.Record.{IsSms, heading};
ghost use Rattle.sms_record.specs.RecordReading.{heading_in, heading_at as heading_front};

use crate::Sms;
use crate::address::{Address, address_at, copy_address, put_address};
use crate::record::marks::{Marks, marks_at, put_marks};
use crate::record::times::{Times, put_times, times_at};
use exact_octets::ReadFault;
use kn_base::{Memory, Octets};
use std::alloc::Global;

/// The fields at the head of a record.
#[derive(Drop)]
pub(crate) struct Heading {
    pub sender: Address,
    pub receiver: Address,
    pub marks: Marks,
    pub times: Times,
}

/// Sender, receiver, marks and times at the front.
#[tactic(auto, unfolding(crate::specs::RecordReading::heading_at))]
pub(crate) fn heading_at(alloc: Global, octets: &[u8]) -> Result<(Heading, &[u8]), ReadFault>
    ensures { Gives (λ x. (x.0, x.1.now)) result (heading_front octets.now) }
{
    let (sender, rest) = address_at(alloc, octets)?;
    let (receiver, rest) = address_at(alloc, rest)?;
    let (marks, rest) = marks_at(rest)?;
    let (times, rest) = times_at(rest)?;
    let heading = Heading {
        sender,
        receiver,
        marks,
        times,
    };
    Ok((heading, rest))
}

/// Puts the heading of a message last.
pub(crate) fn put_heading(into: &mut Octets, sms: &Sms) -> Result<(), Memory>
    requires { IsSms sms.now }
    ensures ok { OnOk result (into.new ≡ into.old ++ heading sms.now) }
    ensures err { OnErr result (Keeps into.old into.new) }
{
    put_address(into, &sms.sender)?;
    put_address(into, &sms.receiver)?;
    put_marks(into, sms)?;
    put_times(into, sms)
}

/// The heading of a message, in memory of its own.
pub(crate) fn copy_heading(alloc: Global, sms: &Sms) -> Result<Heading, Memory>
    ensures { IfOk result (λ copy. copy ≡ heading_in sms.now) }
{
    let sender = copy_address(alloc, &sms.sender)?;
    let receiver = copy_address(alloc, &sms.receiver)?;
    Ok(Heading {
        sender,
        receiver,
        marks: Marks {
            coding: sms.coding,
            class: sms.class,
            charset: sms.charset,
            total: sms.total,
            part: sms.part,
            mask: sms.mask,
        },
        times: Times {
            validity: sms.validity,
            deferred: sms.deferred,
            time: sms.time,
        },
    })
}
