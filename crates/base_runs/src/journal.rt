//! The journal over disks: what an opening finds, what an append leaves, each disk call failing in turn, and a stop in each.

ghost use Rattle.std.specs.Prelude.{IsTrue, OnOk};
ghost use Rattle.store_journal.specs.Area.{IsPayload};
ghost use Rattle.store_journal.specs.Journal.{IsHandedOut, IsKept};

use crate::stops::{CHOICES, failing_disk_of};
use kn_base::{Memory, Octets};
use line_cases::{both, cut_at, cut_item, octets_of, put_named, put_new, put_text};
use std::alloc::Global;
use store_disk::{Area, Disk, MemDisk};
use store_journal::{Journal, OpenFault};

/// The birth of the stores that are born here.
const BIRTH: u64 = 0x0102030405060708;

/// The birth under which a store is opened behind a stop, so that one which wasn't born is told from one that was.
const OTHER_BIRTH: u64 = 5;

/// The most octets of a payload.
const MOST: usize = 16_777_216;

/// More calls than an opening and an append make.
const MOST_CALLS: u64 = 1_000;

/// What became of an opening, and of the append behind it, if there was one: the fault, whether it came in the append,
/// whether the payload was unsure then, and the birth of the store.
#[derive(Clone, Copy)]
struct Ran {
    fault: Option<OpenFault>,
    in_append: bool,
    unsure: bool,
    birth: u64,
}

/// A run that failed in the opening.
fn unopened(fault: OpenFault) -> Ran {
    Ran {
        fault: Some(fault),
        in_append: false,
        unsure: false,
        birth: 0,
    }
}

fn put_open_fault(report: &mut Octets, fault: OpenFault) -> Result<(), Memory> {
    match fault {
        OpenFault::Foreign { area: Area::A, at } => put_named(report, b"foreign A ", at),
        OpenFault::Foreign { area: Area::B, at } => put_named(report, b"foreign B ", at),
        OpenFault::Foreign {
            area: Area::Pick,
            at,
        } => put_named(report, b"foreign pick ", at),
        OpenFault::Disk => report.extend_from_slice(b"disk"),
        OpenFault::Memory => report.extend_from_slice(b"memory"),
    }
}

/// Puts last what became of an opening and an append.
fn put_ran(report: &mut Octets, ran: Ran) -> Result<(), Memory> {
    match ran.fault {
        None => put_named(report, b"good, born ", ran.birth)?,
        Some(fault) => put_open_fault(report, fault)?,
    }
    report.extend_from_slice(match (ran.in_append, ran.unsure) {
        (false, false) => b" | ",
        (true, false) => b" in append | ",
        (false, true) => b", unsure | ",
        (true, true) => b" in append, unsure | ",
    })
}

/// The payloads that are left, each with a bar behind it.
fn hand_out<D: Disk>(alloc: Global, journal: &mut Journal<D>) -> Result<Octets, Memory>
    requires { IsKept D.meaning journal.old }
    ensures ended { OnOk result (IsHandedOut journal.new) }
    ensures kept { OnOk result (IsKept D.meaning journal.new) }
{
    let mut all = Octets::new(alloc);
    'payloads: loop {
        match journal.next() {
            Ok(Some(payload)) => {
                all.extend_from_slice(payload.as_slice())?;
                all.push(b'/')?;
            }
            Ok(None) => return Ok(all),
            Err(_) => return Err(Memory),
        }
    }
}

/// Opens a store, and closes it.
fn open<D: Disk>(alloc: Global, disk: D) -> (D, Ran) {
    match Journal::open(alloc, disk, BIRTH) {
        Ok(journal) => {
            let birth = journal.birth();
            let ran = Ran {
                fault: None,
                in_append: false,
                unsure: journal.unsure(),
                birth,
            };
            (journal.close(), ran)
        }
        Err((disk, fault)) => (disk, unopened(fault)),
    }
}

/// Whether octets can be a payload.
fn is_payload(octets: &[u8]) -> bool
    ensures { IsTrue result → IsPayload octets.now }
{
    1 <= octets.len() && octets.len() <= MOST
}

/// Repairs what is unsure, and appends a payload. Whether both were good.
fn append_after<D: Disk>(journal: &mut Journal<D>, payload: &[u8]) -> Result<bool, Memory>
    requires kept { IsKept D.meaning journal.old }
    requires ended { IsHandedOut journal.old }
    requires size { IsPayload payload.now }
    ensures kept { OnOk result (IsKept D.meaning journal.new) }
    ensures ended { OnOk result (IsHandedOut journal.new) }
{
    if journal.repair().is_err() {
        return Ok(false);
    }
    journal.reserve(payload)?;
    Ok(journal.append().is_ok())
}

/// Appends a payload.
fn append_to<D: Disk>(journal: &mut Journal<D>, payload: &[u8]) -> Result<Ran, Memory>
    requires kept { IsKept D.meaning journal.old }
    requires ended { IsHandedOut journal.old }
    requires size { IsPayload payload.now }
    ensures kept { OnOk result (IsKept D.meaning journal.new) }
    ensures ended { OnOk result (IsHandedOut journal.new) }
{
    let in_append = !append_after(journal, payload)?;
    Ok(Ran {
        fault: if in_append {
            Some(OpenFault::Disk)
        } else {
            None
        },
        in_append,
        unsure: journal.unsure(),
        birth: journal.birth(),
    })
}

/// Appends a payload, and where that failed, once more.
fn append_again<D: Disk>(
    journal: &mut Journal<D>,
    payload: &[u8],
    again: bool,
) -> Result<Ran, Memory>
    requires kept { IsKept D.meaning journal.old }
    requires ended { IsHandedOut journal.old }
    requires size { IsPayload payload.now }
{
    let ran = append_to(journal, payload)?;
    if again && ran.in_append {
        append_after(journal, payload)?;
    }
    Ok(ran)
}

/// Opens a store and appends one payload to it, and where that failed, maybe once more. What can't be a payload is a want of memory.
fn append<D: Disk + Drop>(
    alloc: Global,
    disk: D,
    payload: &[u8],
    again: bool,
) -> Result<(D, Ran), Memory> {
    if !is_payload(payload) {
        return Err(Memory);
    }
    let mut journal = match Journal::open(alloc, disk, BIRTH) {
        Ok(journal) => journal,
        Err((disk, fault)) => return Ok((disk, unopened(fault))),
    };
    hand_out(alloc, &mut journal)?;
    let ran = append_again(&mut journal, payload, again)?;
    Ok((journal.close(), ran))
}

/// The payloads of the store on a disk, each with a bar behind it, and the disk. A store that can't be opened has none.
fn payloads<D: Disk + Drop>(alloc: Global, disk: D) -> Result<(D, Octets), Memory> {
    let mut journal = match Journal::open(alloc, disk, 0) {
        Ok(journal) => journal,
        Err((disk, _fault)) => return Ok((disk, Octets::new(alloc))),
    };
    let all = hand_out(alloc, &mut journal)?;
    Ok((journal.close(), all))
}

/// Appends so many payloads of 66 octets.
fn append_many<D: Disk>(journal: &mut Journal<D>, count: u8) -> Result<(), OpenFault>
    requires kept { IsKept D.meaning journal.old }
    requires ended { IsHandedOut journal.old }
{
    for number in 0..count {
        if !append_after(journal, &[number; 66])? {
            return Err(OpenFault::Disk);
        }
    }
    Ok(())
}

/// Appends so many payloads of 66 octets behind those that are left, and ends the journal. Whether each append was good.
fn with_many<D: Disk + Drop>(
    alloc: Global,
    journal: Journal<D>,
    count: u8,
) -> Result<(D, bool), Memory>
    requires { IsKept D.meaning journal }
{
    let mut journal = journal;
    hand_out(alloc, &mut journal)?;
    let is_good = append_many(&mut journal, count).is_ok();
    Ok((journal.close(), is_good))
}

/// Opens the store on a disk, appends so many payloads of 66 octets, and closes it.
fn put_many<D: Disk + Drop>(
    alloc: Global,
    disk: D,
    count: u8,
    report: &mut Octets,
) -> Result<D, Memory> {
    let (disk, is_good) = match Journal::open(alloc, disk, BIRTH) {
        Ok(journal) => with_many(alloc, journal, count)?,
        Err((disk, _fault)) => (disk, false),
    };
    report.extend_from_slice(if is_good {
        b"appended | "
    } else {
        b"failed | "
    })?;
    Ok(disk)
}

/// Opens the store on a disk, and closes it.
fn put_open<D: Disk + Drop>(alloc: Global, disk: D, report: &mut Octets) -> Result<D, Memory> {
    let (disk, ran) = open(alloc, disk);
    put_ran(report, ran)?;
    Ok(disk)
}

/// The payloads of the store on a disk, or how many octets they have, each with a bar behind it.
fn put_payloads<D: Disk + Drop>(
    alloc: Global,
    disk: D,
    counted: bool,
    report: &mut Octets,
) -> Result<D, Memory> {
    let (disk, all) = payloads(alloc, disk)?;
    if counted {
        put_named(report, b"octets ", all.len() as u64)?;
    } else {
        put_text(report, all.as_slice())?;
    }
    report.extend_from_slice(b" | ")?;
    Ok(disk)
}

/// What is done with the store on a disk.
#[derive(Clone, Copy)]
enum Act {
    Open,
    Many,
    List,
    Length,
    Append,
}

/// The acts by their words.
static ACTS: [(&str, Act); 4] = [
    ("open", Act::Open),
    ("many", Act::Many),
    ("list", Act::List),
    ("length", Act::Length),
];

/// The act of a word, and `Append` of another.
fn act_of(word: &[u8]) -> Act {
    for (name, act) in &ACTS {
        if word == name.as_bytes() {
            return *act;
        }
    }
    Act::Append
}

/// `open`, `list`, `length`, `many` (200 payloads of 66 octets), and else a payload that is appended: each opens the store and closes
/// it again.
fn put_act<D: Disk + Drop>(
    alloc: Global,
    disk: D,
    word: &[u8],
    report: &mut Octets,
) -> Result<D, Memory> {
    match act_of(word) {
        Act::Open => put_open(alloc, disk, report),
        Act::Many => put_many(alloc, disk, 200, report),
        Act::List => put_payloads(alloc, disk, false, report),
        Act::Length => put_payloads(alloc, disk, true, report),
        Act::Append => put_append(alloc, disk, word, report),
    }
}

/// Opens the store on a disk, appends a payload to it, and closes it.
fn put_append<D: Disk + Drop>(
    alloc: Global,
    disk: D,
    payload: &[u8],
    report: &mut Octets,
) -> Result<D, Memory> {
    let payload = octets_of(alloc, payload)?;
    let (disk, ran) = append(alloc, disk, payload.as_slice(), false)?;
    put_ran(report, ran)?;
    Ok(disk)
}

/// All acts on a disk, between blanks.
pub fn put_acts<D: Disk + Drop>(
    alloc: Global,
    disk: D,
    acts: &[u8],
    report: &mut Octets,
) -> Result<D, Memory> {
    let mut disk = disk;
    let mut rest = acts;
    for _ in 0..acts.len() {
        if rest.is_empty() {
            break;
        }
        let (act, behind) = cut_at(rest, b' ');
        rest = behind;
        disk = put_act(alloc, disk, act, report)?;
    }
    Ok(disk)
}

/// A copy of the numbers.
fn numbers(alloc: Global, numbers: &[u64]) -> Result<Vec<u64>, Memory> {
    Ok(numbers.to_vec(alloc)?)
}

/// The disk whose areas a text begins with, one call of which may fail, and what stands behind them.
fn disk_of<'a>(
    alloc: Global,
    text: &'a [u8],
    failing: &[u64],
) -> Result<(MemDisk, &'a [u8]), Memory> {
    let (a, text) = cut_item(text);
    let (b, text) = cut_item(text);
    let (pick, text) = cut_item(text);
    let areas = both(octets_of(alloc, a), octets_of(alloc, b));
    let others = both(octets_of(alloc, pick), numbers(alloc, failing));
    let ((a, b), (pick, failing)) = both(areas, others)?;
    Ok((MemDisk::new(alloc, a, b, pick, failing), text))
}

/// Puts last what the areas hold.
fn put_areas(report: &mut Octets, disk: &MemDisk) -> Result<(), Memory> {
    for area in [Area::A, Area::B, Area::Pick] {
        put_text(report, disk.area(area))?;
        report.extend_from_slice(b" | ")?;
    }
    Ok(())
}

/// Puts last how many octets the areas hold.
fn put_sizes(report: &mut Octets, disk: &MemDisk) -> Result<(), Memory> {
    for area in [Area::A, Area::B, Area::Pick] {
        put_named(report, b" ", disk.area(area).len() as u64)?;
    }
    Ok(())
}

/// Puts last what the areas hold, and how many calls were made.
fn put_calls(report: &mut Octets, disk: &MemDisk) -> Result<(), Memory> {
    put_areas(report, disk)?;
    put_named(report, b"calls ", disk.calls())
}

/// What is shown of a disk: what its areas hold (`areas`), and how many calls were made too (`calls`), or how much they hold (`sizes`),
/// or `nothing`.
fn put_disk(report: &mut Octets, disk: &MemDisk, shown: &[u8]) -> Result<(), Memory> {
    if shown == b"areas".as_slice() {
        put_areas(report, disk)
    } else if shown == b"calls".as_slice() {
        put_calls(report, disk)
    } else if shown == b"sizes".as_slice() {
        put_sizes(report, disk)
    } else {
        Ok(())
    }
}

/// `store A | B | PICK | ACTS .. | SHOWN`: acts on a disk in memory with these areas, and what is shown of it in the end.
pub fn put_store(alloc: Global, text: &[u8], report: &mut Octets) -> Result<(), Memory> {
    let (disk, text) = disk_of(alloc, text, &[])?;
    let (acts, shown) = cut_item(text);
    let disk = put_acts(alloc, disk, acts, report)?;
    put_disk(report, &disk, shown)
}

/// Puts last what a run of an append left whose call of a number was to fail: its outcome, the faults, and how many calls were made
/// from that one on.
fn put_failing(report: &mut Octets, disk: &MemDisk, ran: Ran, call: u64) -> Result<(), Memory> {
    report.extend_from_slice(b"    ")?;
    match ran.fault {
        None => report.extend_from_slice(b"good | ")?,
        Some(_) => put_ran(report, ran)?,
    }
    put_named(report, b"faults ", disk.faults())?;
    put_named(report, b" | calls ", disk.calls().wrapping_sub(call))?;
    report.extend_from_slice(b" | ")
}

/// `each A | B | PICK | PAYLOAD`: an append to a disk with these areas, each call of which fails in turn, until none is left to
/// fail; where it was one of the append, the same journal appends once more. What stands in the end is listed. Runs that come to the same
/// one after the other are one line.
pub fn put_each(alloc: Global, text: &[u8], report: &mut Octets) -> Result<(), Memory> {
    let mut last = Octets::new(alloc);
    for call in 0..MOST_CALLS {
        let (line, goes_on) = failing_line(alloc, text, call)?;
        put_new(report, &mut last, line)?;
        if !goes_on {
            break;
        }
    }
    Ok(())
}

/// The line of a run whose call of a number fails, and whether one did.
fn failing_line(alloc: Global, text: &[u8], call: u64) -> Result<(Octets, bool), Memory> {
    let (disk, payload) = disk_of(alloc, text, &[call])?;
    let (disk, ran) = append(alloc, disk, payload, true)?;
    let mut line = Octets::new(alloc);
    put_failing(&mut line, &disk, ran, call)?;
    let closed = disk.stopped(alloc, disk.calls(), 0)?;
    let _disk = put_payloads(alloc, closed, false, &mut line)?;
    Ok((line, ran.fault.is_some()))
}

/// Appends the words to a journal, one by one, whether the one before was good or failed.
fn append_words<D: Disk>(journal: &mut Journal<D>, words: &[u8]) -> Result<(), Memory>
    requires kept { IsKept D.meaning journal.old }
    requires ended { IsHandedOut journal.old }
{
    let mut rest = words;
    for _ in 0..words.len() {
        let (word, behind) = cut_at(rest, b' ');
        rest = behind;
        if is_payload(word) {
            append_after(journal, word)?;
        }
    }
    Ok(())
}

/// Opens the store on a disk, appends the words, and closes it.
fn with_words<D: Disk + Drop>(alloc: Global, disk: D, words: &[u8]) -> Result<D, Memory> {
    let mut journal = match Journal::open(alloc, disk, BIRTH) {
        Ok(journal) => journal,
        Err((disk, _fault)) => return Ok(disk),
    };
    hand_out(alloc, &mut journal)?;
    append_words(&mut journal, words)?;
    Ok(journal.close())
}

/// Puts last the birth and the payloads of the store on a disk, or why it can't be opened.
fn put_found<D: Disk + Drop>(alloc: Global, disk: D, report: &mut Octets) -> Result<(), Memory> {
    let mut journal = match Journal::open(alloc, disk, OTHER_BIRTH) {
        Ok(journal) => journal,
        Err((_disk, fault)) => return put_open_fault(report, fault),
    };
    put_named(report, b"", journal.birth())?;
    report.push(b':')?;
    let all = hand_out(alloc, &mut journal)?;
    put_text(report, all.as_slice())
}

/// The line of the stops in one call: what the next opening finds by each choice.
fn put_stop(alloc: Global, disk: &MemDisk, call: u64, report: &mut Octets) -> Result<(), Memory> {
    put_named(report, b"    ", call)?;
    for choice in &CHOICES {
        report.extend_from_slice(b" | ")?;
        let stopped = disk.stopped(alloc, call, *choice)?;
        put_found(alloc, stopped, report)?;
    }
    report.push(b'\n')
}

/// `stopped A | B | PICK | FAILING .. | PAYLOADS ..`: the store on a disk is opened, and payloads are appended, each behind a repair where
/// that is wanted; how many calls that were and how many failed, and what an opening finds behind a stop in each call.
pub fn put_stopped(alloc: Global, text: &[u8], report: &mut Octets) -> Result<(), Memory> {
    let (disk, words) = failing_disk_of(alloc, text)?;
    let disk = with_words(alloc, disk, words)?;
    put_named(report, b"    calls ", disk.calls())?;
    put_named(report, b", faults ", disk.faults())?;
    report.push(b'\n')?;
    for call in 0..disk.calls() {
        put_stop(alloc, &disk, call, report)?;
    }
    put_stop(alloc, &disk, disk.calls(), report)
}
