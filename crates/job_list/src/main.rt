//! Lists the jobs of a store: the URLs that are still to be called for reports, and what it counts of them.
//!
//! `job_list NAME ..`: each store of the files NAME.a, NAME.b and NAME.pick, which is made where there is none, as by `boxes`. It writes how many
//! reports are awaited, how many belonged to no message and how many jobs there are, and then a job a line, its number and its URL. It is for `interop/`, since no command of `boxes` prints a
//! URL, and for the store in `data/`, which a program left that knew nothing of reports: of four messages the centre took `one` with the mask 31,
//! `two` with the mask 3 and `plain` with none, and refused one with the mask 16.
#![tactic(auto)]

ghost use Rattle.std.specs.Prelude.{◌≡◌, length};
ghost use Rattle.gate_store.specs.Store.{IsOpen};

use gate_model::Totals;
use gate_store::{Store, StoreFault};
use kn_base::{HostPeer, Items, Memory, Octets, write_all};
use line_cases::put_named;
use route_rules::Rules;
use std::alloc::Global;
use std::env;
use std::fs::{File, Files};
use std::process::ExitCode;
use std::rt::{Env, Runtime};
use store_disk::{Disk, HostDisk};

/// The birth of a store that isn't born yet.
const BIRTH: u64 = 1;

/// No links, and no room for more messages: nothing is taken.
fn no_rules(alloc: Global) -> Rules
    ensures { length result.links ≡ 0 }
{
    Rules {
        links: Items::new(alloc),
        outgoing: 0,
        incoming: 0,
    }
}

/// Takes the next job that nobody has taken: its number, its URL, and how often it was given back.
fn take<D: Disk>(store: &mut Store<D>) -> Result<Option<(u64, Octets, u32)>, Memory>
    requires { IsOpen D.meaning store.old }
    ensures { IsOpen D.meaning store.new }
{
    store.take_job()
}

/// Puts the next job last, where there is one, as a line.
fn put_job<D: Disk>(store: &mut Store<D>, lines: &mut Octets) -> Result<(), Memory>
    requires { IsOpen D.meaning store.old }
    ensures { IsOpen D.meaning store.new }
{
    if let Some((job, url, _)) = take(store)? {
        put_named(lines, b"", job)?;
        lines.push(b' ')?;
        lines.extend_from_slice(url.as_slice())?;
        lines.push(b'\n')?;
    }
    Ok(())
}

/// Puts what a store counts of reports last, as a line.
fn put_totals(lines: &mut Octets, totals: Totals) -> Result<(), Memory> {
    put_named(lines, b"awaited ", totals.awaited)?;
    put_named(lines, b" unmatched ", totals.unmatched)?;
    put_named(lines, b" jobs ", totals.jobs)?;
    lines.push(b'\n')
}

/// Puts what a store counts of reports last, and then each job, in the order in which they are handed out.
fn put_jobs<D: Disk>(store: &mut Store<D>, lines: &mut Octets) -> Result<(), Memory>
    requires { IsOpen D.meaning store.old }
{
    let totals = store.totals();
    put_totals(lines, totals)?;
    for _ in 0..totals.jobs {
        put_job(store, lines)?;
    }
    Ok(())
}

/// Puts what a store holds of reports last, and closes it.
fn put_store<D: Disk + Drop>(store: Store<D>, lines: &mut Octets) -> Result<(), Memory>
    requires { IsOpen D.meaning store }
{
    let mut store = store;
    let put = put_jobs(&mut store, lines);
    store.close();
    put
}

/// Puts the reason why no store stands open last.
fn put_fault(lines: &mut Octets, fault: StoreFault) -> Result<(), Memory> {
    lines.extend_from_slice(match fault {
        StoreFault::Foreign { .. } => b"no store\n",
        StoreFault::Disk => b"disk fault\n",
        StoreFault::Memory => b"out of memory\n",
    })
}

/// Puts what the store of a disk holds last.
fn put_disk<D: Disk + Drop>(alloc: Global, disk: D, lines: &mut Octets) -> Result<(), Memory> {
    match Store::open(alloc, disk, no_rules(alloc), BIRTH) {
        Ok(store) => put_store(store, lines),
        Err((_, fault)) => put_fault(lines, fault),
    }
}

/// The lines of each store that a word names.
fn lines_of<R: Runtime + Env + Files<File = File> + AllocGlobal + Copy>(
    rt: R,
) -> Result<Octets, Memory> {
    let alloc = rt.alloc();
    let mut lines = Octets::new(alloc);
    if let Ok(args) = env::args(&rt) {
        for word in args.skip(1) {
            put_disk(
                alloc,
                HostDisk::new(alloc, rt, word.as_bytes())?,
                &mut lines,
            )?;
        }
    }
    Ok(lines)
}

fn main(rt: HostRuntime) -> ExitCode {
    match lines_of(rt) {
        Ok(lines) => {
            let _ = write_all(&mut HostPeer::new(rt), lines.as_slice());
            ExitCode::SUCCESS
        }
        Err(Memory) => ExitCode::FAILURE,
    }
}
