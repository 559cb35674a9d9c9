//! How many octets an entry has, before it is written.

ghost use Rattle.std.specs.Prelude.{◌≡◌, ◌+◌, ◌*◌, length};
ghost use Rattle.std.specs.List.{flat_map};
ghost use Rattle.gate_entries.specs.Entry.{IsEntry, entry_octets, cause_octets};
ghost use Rattle.gate_entries.specs.Size.{capped};
ghost use Rattle.sms_record.specs.Record.{address as address_octets, contents, sms_octets};

use crate::{Cause, Recorded};
use sms_record::{Address, Sms};

/// A sum, or the greatest number where it is more.
fn plus(sum: u64, more: usize) -> u64
    ensures { result ≡ capped (sum + more) }
{
    sum.saturating_add(more as u64)
}

fn with_address(sum: u64, address: &Address) -> u64
    ensures { result ≡ capped (sum + length (address_octets address.now)) }
{
    match address {
        Address::Number { digits, .. } => plus(plus(sum, 2), digits.len()),
        Address::Text(text) => plus(plus(sum, 2), text.len()),
    }
}

/// The header, the body and the names of a message: six texts, two of them behind two octets, the others behind one.
fn with_contents(sum: u64, sms: &Sms) -> u64
    ensures { result ≡ capped (sum + length (contents sms.now)) }
{
    let sum = plus(sum, sms.udh.len());
    let sum = plus(sum, sms.body.len());
    let sum = plus(sum, sms.smsc.len());
    let sum = plus(sum, sms.url.len());
    let sum = plus(sum, sms.account.len());
    let sum = plus(sum, sms.service.len());
    plus(sum, 8)
}

/// The record of a message: two addresses, six marks, times of sixteen octets, and the contents.
fn with_sms(sum: u64, sms: &Sms) -> u64
    ensures { result ≡ capped (sum + length (sms_octets sms.now)) }
{
    let sum = with_address(sum, &sms.sender);
    let sum = with_address(sum, &sms.receiver);
    with_contents(plus(sum, 22), sms)
}

fn with_parts(before: u64, parts: &[Sms]) -> u64
    ensures { result ≡ capped (before + length (flat_map sms_octets parts.now)) }
{
    let mut sum = before;
    for sms in parts {
        sum = with_sms(sum, sms);
    }
    sum
}

/// Eight octets for each of so many numbers.
fn with_numbers(sum: u64, count: usize) -> u64
    ensures { result ≡ capped (sum + 8 * count) }
{
    let twice = plus(plus(0, count), count);
    let four_times = twice.saturating_add(twice);
    sum.saturating_add(four_times.saturating_add(four_times))
}

fn cause_size(cause: Cause) -> usize
    ensures { result ≡ length (cause_octets cause) }
{
    match cause {
        Cause::Centre(_) => 5,
        Cause::Expired => 1,
    }
}

fn size_of(entry: &Recorded) -> u64
    ensures { result ≡ capped (length (entry_octets entry.now)) }
{
    match entry {
        Recorded::Accept(accept) => with_parts(11, accept.parts.as_slice()),
        Recorded::Acked(acked) => plus(plus(21, acked.smsc.len()), acked.foreign.len()),
        Recorded::Rejected(rejected) => {
            plus(plus(19, rejected.smsc.len()), cause_size(rejected.cause))
        }
        Recorded::Reported(reported) => {
            let ids = plus(plus(16, reported.smsc.len()), reported.foreign.len());
            plus(ids, reported.text.len())
        }
        Recorded::Arrived(arrived) => with_sms(plus(3, arrived.smsc.len()), &arrived.sms),
        Recorded::Answered(answered) => {
            let front = with_numbers(13, answered.arrivals.len());
            with_parts(front, answered.parts.as_slice())
        }
        Recorded::Called(_) => 11,
        Recorded::CallDropped(_) => 10,
    }
}

/// How many octets the entry has. It takes no memory. Beyond the grammar, where they could be more than 2^64 - 1, it says that number.
pub fn entry_size(entry: &Recorded) -> u64
    ensures size { result ≡ capped (length (entry_octets entry.now)) }
    ensures exact { IsEntry entry.now → result ≡ length (entry_octets entry.now) }
{
    size_of(entry)
}
