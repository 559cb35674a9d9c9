//! The dialer and the stream of the machine say what went through, over a network of a plan.

use crate::ends::{put_closed, put_give, put_take};
use crate::network::{Plan, PlannedNet};
use kn_base::{Memory, Octets, Peer};
use line_cases::{Acts, cut_at, cut_item, number, put_acts, put_text};
use peer_dialer::{Dialed, Dialer, HostDialer};
use std::alloc::Global;
use std::rc::Rc;

/// Gives a word for `g`, and takes for each other letter.
fn put_calls<P: Peer>(peer: &mut P, letters: &[u8], report: &mut Octets) -> Result<(), Memory> {
    for letter in letters {
        if *letter == b'g' {
            put_give(peer, b"hello", report)?;
        } else {
            put_take(peer, report)?;
        }
        report.extend_from_slice(b", ")?;
    }
    Ok(())
}

/// Each word is `HOST=PORT=LETTERS`: a dial, and the calls of the stream that came of it.
#[derive(Drop)]
struct Line<D> {
    dialer: D,
}

impl<D: Dialer> Acts for Line<D> {
    fn act(&mut self, _alloc: Global, word: &[u8], report: &mut Octets) -> Result<(), Memory> {
        let (host, text) = cut_at(word, b'=');
        let (port, letters) = cut_at(text, b'=');
        match self.dialer.dial(host, number(port).min(65_535) as u16) {
            Dialed::Peer(peer) => {
                let mut peer = peer;
                let calls = put_calls(&mut peer, letters, report);
                let closed = self.dialer.back(peer);
                calls?;
                put_closed(report, &closed)
            }
            Dialed::Failed => report.extend_from_slice(b"failed"),
            Dialed::Gone => report.extend_from_slice(b"gone"),
        }
    }
}

/// `network ANSWER .. | HOST=PORT=LETTERS ..`: the machine's dialer over a network with these answers, and all that it asked for.
pub fn put_network(alloc: Global, text: &[u8], report: &mut Octets) -> Result<(), Memory> {
    let (script, acts) = cut_item(text);
    let script = Octets::from_slice(alloc, script)?;
    let Ok(plan) = Rc::new(alloc, Plan::new(script)) else {
        return Err(Memory);
    };
    let Ok(shared) = plan.clone() else {
        return Err(Memory);
    };
    let dialer = HostDialer::new(PlannedNet { plan: shared });
    put_acts(alloc, &mut Line { dialer }, acts, report)?;
    report.extend_from_slice(b"asked")?;
    put_text(report, plan.notes.get().octets())
}
