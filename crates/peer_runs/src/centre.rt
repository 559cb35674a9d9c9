//! Centres, by themselves and as peers.

use crate::ends::{put_closed, put_give, put_take};
use crate::script::cut_script;
use fake_centre::{Centre, CentrePeer};
use kn_base::{Memory, Octets, Peer, Sink, Source};
use line_cases::{Acts, octets_of, put_acts, put_named};
use peer_dialer::Closed;
use route_rules::LinkKind;
use sms_lines::put_hex;
use std::alloc::Global;

/// Each word is octets that the centre hears.
#[derive(Drop)]
struct Hearing {
    centre: Centre,
}

impl Acts for Hearing {
    fn act(&mut self, alloc: Global, word: &[u8], report: &mut Octets) -> Result<(), Memory> {
        let said = self.centre.hear(octets_of(alloc, word)?.as_slice())?;
        put_hex(report, b"", said.as_slice())
    }
}

/// `heard SCRIPT | OCTETS ..`: what a centre says to octets that come in these pieces, and whether it is done and over then.
pub fn put_heard(alloc: Global, text: &[u8], report: &mut Octets) -> Result<(), Memory> {
    let (script, acts) = cut_script(alloc, text)?;
    let mut hearing = Hearing {
        centre: Centre::new(alloc, LinkKind::Smpp, script),
    };
    put_acts(alloc, &mut hearing, acts, report)?;
    put_named(report, b"done ", u64::from(hearing.centre.is_done()))?;
    put_named(report, b", over ", u64::from(hearing.centre.is_over()))
}

/// `take`, else octets that are given.
#[derive(Drop)]
struct Talking<P> {
    peer: P,
}

impl<P: Source + Sink> Acts for Talking<P> {
    fn act(&mut self, alloc: Global, word: &[u8], report: &mut Octets) -> Result<(), Memory> {
        if word == b"take".as_slice() {
            put_take(&mut self.peer, report)
        } else {
            let octets = octets_of(alloc, word)?;
            put_give(&mut self.peer, octets.as_slice(), report)
        }
    }
}

/// Puts last what acts on a peer came to, and what it was in the end.
fn put_ended<P: Peer + Drop>(
    alloc: Global,
    peer: P,
    acts: &[u8],
    report: &mut Octets,
) -> Result<(), Memory> {
    let mut talking = Talking { peer };
    put_acts(alloc, &mut talking, acts, report)?;
    match talking.peer.part() {
        Some(past) => put_closed(report, &Closed::told(past)),
        None => report.extend_from_slice(b"not told"),
    }
}

/// `talk SCRIPT | ACT ..`: a peer over a centre.
pub fn put_talk(alloc: Global, text: &[u8], report: &mut Octets) -> Result<(), Memory> {
    let (script, acts) = cut_script(alloc, text)?;
    let centre = Centre::new(alloc, LinkKind::Smpp, script);
    put_ended(alloc, CentrePeer::new(alloc, centre), acts, report)
}
