//! Acts on a store in memory, whose first link is up, where there is one.

ghost use Rattle.std.specs.Prelude.{◌≡◌, ◌<◌, ◌≤◌, ◌^◌, length};
ghost use Rattle.gate_entries.specs.Entry.{IsEntry};
ghost use Rattle.gate_model.specs.Gate.{HaveIds};
ghost use Rattle.gate_entries.specs.declared.passing.Passing.TheVariants.{Up};
ghost use Rattle.gate_model.specs.Lawful.{MayPass};
ghost use Rattle.gate_model.specs.Settling.{settle};
ghost use Rattle.gate_store.specs.Store.{IsOpen, rules_in, state_in};
ghost use Rattle.gate_store.specs.StoreSteps.{MayRecord};

use crate::acts::{END_OF_TIME, put_refusal, put_reply, put_report_totals, put_totals};
use crate::entries::{entry_octets, nth};
use crate::rules::rules_of;
use gate_entries::{Passing, Recorded, entry_size, read_entry};
use gate_model::{Refusal, Reply};
use gate_store::{Store, StoreFault, Taken};
use kn_base::{Memory, Octets};
use line_cases::{cut_at, cut_item, numbers_of, put_named};
use route_rules::Rules;
use sms_record::Sms;
use std::alloc::Global;
use store_disk::{Disk, MemDisk};

/// The most octets of an entry that a journal holds.
const MOST_PAYLOAD: u64 = 16_777_216;

/// The birth of a store.
const BIRTH: u64 = 1;

/// Has a store record an entry.
fn record<D: Disk>(store: &mut Store<D>, entry: Recorded) -> Result<Reply, Refusal>
    requires kept { IsOpen D.meaning store.old }
    requires may { MayRecord store.old entry }
    ensures kept { IsOpen D.meaning store.new }
    ensures ruled { rules_in store.new ≡ rules_in store.old }
{
    store.perform(entry)
}

/// What a link is given that asks for its next message.
fn take<D: Disk>(store: &mut Store<D>, link: u32, now: u64) -> Result<Option<Taken>, Refusal>
    requires kept { IsOpen D.meaning store.old }
    requires time { now < 2 ^ 37 }
    requires ids { HaveIds (rules_in store.old) }
    ensures kept { IsOpen D.meaning store.new }
    ensures ruled { rules_in store.new ≡ rules_in store.old }
{
    store.take_next(link, now)
}

/// What is given that asks for the next job.
fn take_job<D: Disk>(store: &mut Store<D>) -> Result<Option<(u64, Octets, u32)>, Memory>
    requires kept { IsOpen D.meaning store.old }
    ensures kept { IsOpen D.meaning store.new }
    ensures ruled { rules_in store.new ≡ rules_in store.old }
{
    store.take_job()
}

/// What is given that asks for the next arrival.
fn take_arrival<D: Disk>(store: &mut Store<D>) -> Result<Option<(u64, Sms)>, Memory>
    requires kept { IsOpen D.meaning store.old }
    ensures kept { IsOpen D.meaning store.new }
    ensures ruled { rules_in store.new ≡ rules_in store.old }
{
    store.take_arrival()
}

/// A link comes up.
fn come_up<D: Disk>(store: &mut Store<D>, link: u32)
    requires kept { IsOpen D.meaning store.old }
    requires may { MayPass (rules_in store.old) (state_in store.old) (Up link) }
    ensures kept { IsOpen D.meaning store.new }
    ensures ruled { rules_in store.new ≡ rules_in store.old }
{
    store.pass(Passing::Up { link });
}

/// Has a store record an entry, unless it is unsound.
fn put_recorded<D: Disk>(
    store: &mut Store<D>,
    entry: Recorded,
    report: &mut Octets,
) -> Result<(), Memory>
    requires kept { IsOpen D.meaning store.old }
    requires ids { HaveIds (rules_in store.old) }
    requires spelled { IsEntry entry }
    ensures kept { IsOpen D.meaning store.new }
    ensures ids { HaveIds (rules_in store.new) }
{
    if !store.state().suits(&entry) || entry_size(&entry) > MOST_PAYLOAD {
        return report.extend_from_slice(b"unsound");
    }
    match record(store, entry) {
        Ok(reply) => put_reply(report, reply),
        Err(refusal) => put_refusal(report, refusal),
    }
}

/// Has a store record the entry of an act.
fn put_entry<D: Disk>(
    alloc: Global,
    store: &mut Store<D>,
    act: &[u8],
    report: &mut Octets,
) -> Result<(), Memory>
    requires kept { IsOpen D.meaning store.old }
    requires ids { HaveIds (rules_in store.old) }
    ensures kept { IsOpen D.meaning store.new }
    ensures ids { HaveIds (rules_in store.new) }
{
    let octets = entry_octets(alloc, act)?;
    match read_entry(alloc, octets.as_slice()) {
        Ok(entry) => put_recorded(store, entry, report),
        Err(_) => report.extend_from_slice(b"no entry"),
    }
}

/// Puts last what a link is given that asks for its next message.
fn put_taken<D: Disk>(
    store: &mut Store<D>,
    link: u32,
    now: u64,
    report: &mut Octets,
) -> Result<(), Memory>
    requires kept { IsOpen D.meaning store.old }
    requires ids { HaveIds (rules_in store.old) }
    ensures kept { IsOpen D.meaning store.new }
    ensures ids { HaveIds (rules_in store.new) }
{
    if now >= END_OF_TIME {
        return report.extend_from_slice(b"none");
    }
    match take(store, link, now) {
        Ok(Some(Taken::Send { message, sms: _ })) => put_named(report, b"message ", message),
        Ok(Some(Taken::Expired { message })) => put_named(report, b"expired ", message),
        Ok(None) => report.extend_from_slice(b"none"),
        Err(refusal) => put_refusal(report, refusal),
    }
}

/// Puts last what is given that asks for the next job: its number, how often it was given back, and its URL.
fn put_job<D: Disk>(store: &mut Store<D>, report: &mut Octets) -> Result<(), Memory>
    requires kept { IsOpen D.meaning store.old }
    requires ids { HaveIds (rules_in store.old) }
    ensures kept { IsOpen D.meaning store.new }
    ensures ids { HaveIds (rules_in store.new) }
{
    match take_job(store) {
        Ok(Some((job, url, tries))) => {
            put_named(report, b"job ", job)?;
            put_named(report, b" back ", u64::from(tries))?;
            report.push(b' ')?;
            report.extend_from_slice(url.as_slice())
        }
        Ok(None) => report.extend_from_slice(b"none"),
        Err(Memory) => Err(Memory),
    }
}

/// Puts last the number of what is given that asks for the next arrival.
fn put_arrival<D: Disk>(store: &mut Store<D>, report: &mut Octets) -> Result<(), Memory>
    requires kept { IsOpen D.meaning store.old }
    requires ids { HaveIds (rules_in store.old) }
    ensures kept { IsOpen D.meaning store.new }
    ensures ids { HaveIds (rules_in store.new) }
{
    match take_arrival(store) {
        Ok(Some((arrival, _))) => put_named(report, b"arrival ", arrival),
        Ok(None) => report.extend_from_slice(b"none"),
        Err(Memory) => Err(Memory),
    }
}

/// Does an act, and puts last what it came to.
fn put_act<D: Disk>(
    alloc: Global,
    store: &mut Store<D>,
    act: &[u8],
    report: &mut Octets,
) -> Result<(), Memory>
    requires kept { IsOpen D.meaning store.old }
    requires ids { HaveIds (rules_in store.old) }
    ensures kept { IsOpen D.meaning store.new }
    ensures ids { HaveIds (rules_in store.new) }
{
    let (kind, rest) = cut_at(act, b' ');
    if kind == b"totals".as_slice() {
        put_totals(report, store.totals())
    } else if kind == b"reports".as_slice() {
        put_report_totals(report, store.totals())
    } else if kind == b"job".as_slice() {
        put_job(store, report)
    } else if kind == b"arrival".as_slice() {
        put_arrival(store, report)
    } else if kind == b"take".as_slice() {
        let numbers = numbers_of(alloc, rest)?;
        let link = nth(numbers.as_slice(), 0).min(100) as u32;
        put_taken(store, link, nth(numbers.as_slice(), 1), report)
    } else {
        put_entry(alloc, store, act, report)
    }
}

/// Does acts, and puts a bar behind what each came to.
fn put_acts<D: Disk>(
    alloc: Global,
    store: &mut Store<D>,
    acts: &[u8],
    report: &mut Octets,
) -> Result<(), Memory>
    requires kept { IsOpen D.meaning store.old }
    requires ids { HaveIds (rules_in store.old) }
{
    let mut rest = acts;
    for _ in 0..acts.len() {
        if rest.is_empty() {
            break;
        }
        let (act, behind) = cut_item(rest);
        rest = behind;
        put_act(alloc, store, act, report)?;
        report.extend_from_slice(b" | ")?;
    }
    Ok(())
}

/// Does acts on a store, and closes it.
fn put_and_close<D: Disk + Drop>(
    alloc: Global,
    store: Store<D>,
    acts: &[u8],
    report: &mut Octets,
) -> Result<(), Memory>
    requires kept { IsOpen D.meaning store }
    requires ids { HaveIds (rules_in store) }
{
    let mut store = store;
    let put = put_acts(alloc, &mut store, acts, report);
    store.close();
    put
}

/// Brings the first link up, where there is one, and does acts.
fn put_opened<D: Disk + Drop>(
    alloc: Global,
    store: Store<D>,
    acts: &[u8],
    report: &mut Octets,
) -> Result<(), Memory>
    requires kept { IsOpen D.meaning store }
    requires down { settle (state_in store) ≡ state_in store }
    requires ids { HaveIds (rules_in store) }
{
    let mut store = store;
    if store.rules().links.len() < 1 {
        return put_and_close(alloc, store, acts, report);
    }
    come_up(&mut store, 0);
    put_and_close(alloc, store, acts, report)
}

fn put_fault(report: &mut Octets, fault: StoreFault) -> Result<(), Memory> {
    report.extend_from_slice(match fault {
        StoreFault::Foreign { .. } => b"foreign | ",
        StoreFault::Disk => b"disk | ",
        StoreFault::Memory => b"memory | ",
    })
}

/// What acts come to on a store that is opened on a disk.
fn put_on_disk<D: Disk + Drop>(
    alloc: Global,
    disk: D,
    rules: Rules,
    acts: &[u8],
    report: &mut Octets,
) -> Result<(), Memory>
    requires few { length rules.links ≤ 8 }
    requires ids { HaveIds rules }
{
    match Store::open(alloc, disk, rules, BIRTH) {
        Ok(store) => put_opened(alloc, store, acts, report),
        Err((_, fault)) => put_fault(report, fault),
    }
}

/// A disk that holds nothing, whose calls of these numbers fail.
fn disk_of(alloc: Global, failing: &[u8]) -> Result<MemDisk, Memory> {
    let failing = numbers_of(alloc, failing)?;
    let (a, b, pick) = (Octets::new(alloc), Octets::new(alloc), Octets::new(alloc));
    Ok(MemDisk::new(alloc, a, b, pick, failing))
}

/// `LINKS OUTGOING INCOMING | FAILING .. | ACTS ..`: what acts come to on a store that is born on a disk in memory, the calls of these
/// numbers failing.
pub(crate) fn put_store(alloc: Global, line: &[u8], report: &mut Octets) -> Result<(), Memory> {
    let (head, rest) = cut_item(line);
    let (failing, acts) = cut_item(rest);
    let rules = rules_of(alloc, numbers_of(alloc, head)?.as_slice())?;
    put_on_disk(alloc, disk_of(alloc, failing)?, rules, acts, report)
}
