//! The house in memory that a case describes.

ghost use Rattle.std.specs.Prelude.{All, IfOk};
ghost use Rattle.kn_base.specs.Course.{IsFresh};
ghost use Rattle.kn_base.specs.MemCourse.{mem_course};

use crate::case::Case;
use boxes_main::MemHouse;
use kn_base::{MemClock, MemPeer, MemShelf, MemTake, Memory, Octets};
use line_cases::{both, numbers_of, octets_of, words_of};
use peer_dialer::{Counted, MemDialer};
use std::alloc::Global;
use store_disk::MemDisk;

/// The configuration in front of the link's kind, between that and its further lines, and behind these.
const FRONT: &[u8] = b"group = core\nstore-file = gate.store\n\ngroup = smsc\nsmsc = ";

const MIDDLE: &[u8] =
    b"\nsmsc-id = main\nhost = 127.0.0.1\nport = 2775\nsmsc-username = gate\nsmsc-password = secret\n";

const BEHIND: &[u8] =
    b"\n\ngroup = smsbox\nbearerbox-host = localhost\n\ngroup = sendsms-user\nusername = tester\npassword = foobar\n";

/// The name of its store.
const STORE_FILE: &[u8] = b"gate.store";

/// The text of gate.conf.
fn text_of(alloc: Global, case: Case) -> Result<Octets, Memory> {
    let mut text = Octets::from_slice(alloc, FRONT)?;
    text.extend_from_slice(case.kind)?;
    text.extend_from_slice(MIDDLE)?;
    text.extend_from_slice(octets_of(alloc, case.smsc)?.as_slice())?;
    text.extend_from_slice(BEHIND)?;
    Ok(text)
}

/// The shelf with the configuration.
fn shelf_of(alloc: Global, case: Case) -> Result<MemShelf, Memory> {
    let (name, text) = both(
        Octets::from_slice(alloc, b"gate.conf"),
        text_of(alloc, case),
    )?;
    let mut files = Vec::new(alloc);
    files.push((name, text))?;
    Ok(MemShelf::new(alloc, files, Vec::new(alloc)))
}

/// Puts a request over HTTP last.
fn put_request(request: &mut Octets, query: &[u8]) -> Result<(), Memory> {
    request.extend_from_slice(b"GET /cgi-bin/sendsms?username=tester&password=foobar&")?;
    request.extend_from_slice(query)?;
    request.extend_from_slice(b" HTTP/1.1\r\n\r\n")
}

/// The visitor, who asks for the messages of a case in one connection.
pub fn visitor_of(alloc: Global, case: Case) -> Result<MemPeer, Memory> {
    let mut request = Octets::new(alloc);
    for query in words_of(alloc, case.asks)?.iter() {
        put_request(&mut request, query)?;
    }
    let mut takes = Vec::new(alloc);
    if !request.is_empty() {
        takes.push(MemTake::Bytes(request))?;
    }
    Ok(MemPeer::new(alloc, takes, Vec::new(alloc)))
}

/// The clock of a case.
fn clocks_of(alloc: Global, case: Case) -> Result<Vec<MemClock>, Memory> {
    let readings = numbers_of(alloc, case.clock)?;
    Ok(vec![in alloc; MemClock::new(alloc, readings)]?)
}

/// The disk under the name of the store.
fn named<D: Drop>(alloc: Global, disk: D) -> Result<Vec<(Octets, D)>, Memory> {
    let name = Octets::from_slice(alloc, STORE_FILE)?;
    let mut disks = Vec::new(alloc);
    disks.push((name, disk))?;
    Ok(disks)
}

/// A disk that holds nothing.
pub fn new_disk(alloc: Global) -> MemDisk {
    MemDisk::new(
        alloc,
        Octets::new(alloc),
        Octets::new(alloc),
        Octets::new(alloc),
        Vec::new(alloc),
    )
}

/// The peers that a case's dialer has.
fn peers_of<P: Counted + Drop>(alloc: Global, case: Case, peer: P) -> Result<Vec<P>, Memory>
    requires { IsFresh (P.course peer) }
    ensures { IfOk result (λ peers. All (λ peer. IsFresh (P.course peer)) peers.items) }
{
    let mut peers = Vec::new(alloc);
    if case.no_peer {
        return Ok(peers);
    }
    peers.push(peer)?;
    Ok(peers)
}

/// The dialer of a case.
fn dialers_of<P: Counted + Drop>(
    alloc: Global,
    case: Case,
    peer: P,
) -> Result<Vec<MemDialer<P>>, Memory>
    requires { IsFresh (P.course peer) }
{
    let peers = peers_of(alloc, case, peer)?;
    let failing = if case.dial_fails {
        vec![in alloc; 0]?
    } else {
        Vec::new(alloc)
    };
    Ok(vec![in alloc; MemDialer::new(alloc, peers, failing)]?)
}

/// A peer that says nothing and takes all.
pub fn sink(alloc: Global) -> MemPeer
    ensures { IsFresh (mem_course result) }
{
    MemPeer::new(alloc, Vec::new(alloc), Vec::new(alloc))
}

/// A house with this disk, and with a dialer that has this peer.
pub fn house_of<P: Counted + Drop>(
    alloc: Global,
    case: Case,
    visitor: MemPeer,
    peer: P,
    disk: MemDisk,
) -> Result<MemHouse<P>, Memory>
    requires { IsFresh (P.course peer) }
{
    let stock = both(clocks_of(alloc, case), named(alloc, disk));
    let others = both(dialers_of(alloc, case, peer), shelf_of(alloc, case));
    let ((clocks, disks), (dialers, shelf)) = both(stock, others)?;
    Ok(MemHouse::new(
        alloc,
        visitor,
        shelf,
        sink(alloc),
        sink(alloc),
        1,
        clocks,
        dialers,
        disks,
    ))
}
