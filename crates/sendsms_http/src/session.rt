//! One connection over HTTP: what its visit wishes is done.

ghost use Rattle.std.specs.Prelude.{◌≡◌, ◌<◌, ◌≤◌, ◌^◌};
ghost use Rattle.config_groups.specs.Ranges.{AreSettings};
ghost use Rattle.http_text.specs.Answer.{reply_text};
ghost use Rattle.sendsms_http.specs.Session.{Serves};
ghost use Rattle.sendsms_http.specs.SessionSteps as spec;

use crate::http_end::end_of;
use crate::{HttpEnd, Visit, VisitGiven, VisitWish};
use config_groups::Settings;
use gate_model::Acceptor;
use http_text::{Answer, write_answer};
use kn_base::{Clock, Memory, Octets, Peer, Sink, Source, Take, Wrote};
use peer_pieces::PIECE_LIMIT;
use std::alloc::Global;

/// Serves one connection over HTTP: hears requests, hands the messages that they ask for to the store, and answers each, up to the first
/// answer behind which the connection closes. At most `budget` octets are taken.
///
/// The clock is read at each step. 500 is want of memory. `End` where an answer closed the connection, or where the input
/// ended; an end within a head is answered first. `Fault` where a take or a give failed, `Quiet` where nothing came in time, `Memory` where
/// a take or a give found no memory, `Budget` where as many octets were taken as may be and no end came.
pub fn serve_http<A: Acceptor, P: Peer, C: Clock>(
    alloc: Global,
    settings: &Settings,
    acceptor: &mut A,
    peer: &mut P,
    clock: &mut C,
    budget: u64,
) -> HttpEnd
    requires ready { A.can_submit acceptor.old }
    requires in_range { AreSettings settings.now }
    ensures { Serves A.leads A.faults acceptor.old acceptor.new settings.now budget (P.course peer.old) (P.course peer.new)
        (C.readings clock.old) (C.readings clock.new) result }
{
    let starved = peer.starved();
    let mut visit = Visit::new(alloc, budget);
    let mut given = VisitGiven::Begin;
    loop {
        given = match visit.next(settings, given, clock.now()) {
            VisitWish::Listen => match hear(alloc, peer, visit.room()) {
                Ok(given) => given,
                Err(Memory) => return lost(peer, starved),
            },
            VisitWish::Submit { time, parts } => VisitGiven::Answered(acceptor.submit(parts, time)),
            VisitWish::Say { answer, close } => say(peer, answer, close),
            VisitWish::Over(end) => return end_of(end, starved, peer.starved()),
        };
    }
}

// Takes the next octets, at most so many.
fn hear<S: Source>(alloc: Global, source: &mut S, room: u64) -> Result<VisitGiven, Memory>
    requires { 0 < room }
    ensures { spec.HearsSo room (S.course source.old) result (S.course source.new) }
{
    let mut buffer = [0; PIECE_LIMIT];
    let most = (PIECE_LIMIT as u64).min(room) as usize;
    match source.take(&mut buffer[..most]) {
        Take::Bytes(taken) => Ok(VisitGiven::Heard(Octets::from_slice(alloc, &buffer[..taken])?)),
        Take::End => Ok(VisitGiven::End),
        Take::Quiet => Ok(VisitGiven::Quiet),
        Take::Failed => Ok(VisitGiven::Fault),
    }
}

// Octets were heard for which there was no memory: says so, and ends.
fn lost<S: Sink>(sink: &mut S, starved: u64) -> HttpEnd
    ensures { spec.SaysLost starved (S.course sink.old) result (S.course sink.new) }
{
    match write_answer(sink, Answer::OutOfMemory, true) {
        Wrote::All => HttpEnd::End,
        Wrote::Failed { .. } => end_of(HttpEnd::Fault, starved, sink.starved()),
    }
}

// Says an answer.
fn say<S: Sink>(sink: &mut S, answer: Answer, close: bool) -> VisitGiven
    ensures { spec.SaysSo (reply_text answer close) (S.course sink.old) result (S.course sink.new) }
{
    match write_answer(sink, answer, close) {
        Wrote::All => VisitGiven::Said,
        Wrote::Failed { .. } => VisitGiven::SayFault,
    }
}
