//! The answers by their names, and as they look on the wire.

use crate::talk::put_said;
use http_text::{Answer, Spot, write_answer};
use kn_base::{MemPeer, Memory, Octets, Sink, Wrote};
use line_cases::{cut_at, put_named};
use std::alloc::Global;

/// The answers with their names. Of `Bad request: NAME` it is NAME.
static ANSWERS: [(&str, Answer); 23] = [
    ("accepted", Answer::Accepted),
    ("queued", Answer::Queued),
    ("unauthorized", Answer::Unauthorized),
    ("not routable", Answer::NotRoutable),
    ("unknown path", Answer::UnknownPath),
    ("out of memory", Answer::OutOfMemory),
    ("unavailable", Answer::Unavailable),
    ("head", Answer::BadRequest(Spot::Head)),
    ("method", Answer::BadRequest(Spot::Method)),
    ("body", Answer::BadRequest(Spot::Body)),
    ("to", Answer::BadRequest(Spot::To)),
    ("from", Answer::BadRequest(Spot::From)),
    ("coding", Answer::BadRequest(Spot::Coding)),
    ("mclass", Answer::BadRequest(Spot::Mclass)),
    ("charset", Answer::BadRequest(Spot::Charset)),
    ("udh", Answer::BadRequest(Spot::Udh)),
    ("smsc", Answer::BadRequest(Spot::Smsc)),
    ("validity", Answer::BadRequest(Spot::Validity)),
    ("deferred", Answer::BadRequest(Spot::Deferred)),
    ("dlr-mask", Answer::BadRequest(Spot::DlrMask)),
    ("dlr-url", Answer::BadRequest(Spot::DlrUrl)),
    ("account", Answer::BadRequest(Spot::Account)),
    ("text", Answer::BadRequest(Spot::Text)),
];

/// The answer of a name, and `OutOfMemory` of another.
fn answer_of(name: &[u8]) -> Answer {
    for (text, answer) in &ANSWERS {
        if name == text.as_bytes() {
            return *answer;
        }
    }
    Answer::OutOfMemory
}

/// The name of an answer that refuses a request.
pub fn name_of(answer: Answer) -> &'static [u8] {
    match answer {
        Answer::Unauthorized => b"unauthorized",
        Answer::UnknownPath => b"unknown path",
        Answer::BadRequest(spot) => spot_name(spot),
        _ => b"another answer",
    }
}

/// The name of what is wrong with a request.
fn spot_name(spot: Spot) -> &'static [u8] {
    match spot {
        Spot::Head => b"head",
        Spot::Method => b"method",
        Spot::Body => b"body",
        Spot::To => b"to",
        Spot::From => b"from",
        Spot::Coding => b"coding",
        Spot::Mclass => b"mclass",
        Spot::Charset => b"charset",
        Spot::Udh => b"udh",
        Spot::Smsc => b"smsc",
        Spot::Validity => b"validity",
        Spot::Deferred => b"deferred",
        Spot::DlrMask => b"dlr-mask",
        Spot::DlrUrl => b"dlr-url",
        Spot::Account => b"account",
        Spot::Text => b"text",
    }
}

/// `answer NAME`, `answer kept NAME`: whether all of the answer was written, and what was; the second is one behind which the
/// connection is kept.
pub fn put_answer(alloc: Global, text: &[u8], report: &mut Octets) -> Result<(), Memory> {
    let (first, behind) = cut_at(text, b' ');
    let kept = first == b"kept".as_slice();
    let answer = answer_of(if kept { behind } else { text });
    let mut sink = MemPeer::new(alloc, Vec::new(alloc), Vec::new(alloc));
    put_written(&mut sink, answer, !kept, report)?;
    put_said(sink, report)?;
    Ok(())
}

/// Writes an answer, and puts last whether all of it was written.
fn put_written<S: Sink>(
    sink: &mut S,
    answer: Answer,
    close: bool,
    report: &mut Octets,
) -> Result<(), Memory> {
    let whole = write_answer(sink, answer, close) == Wrote::All;
    put_named(report, b"whole ", u64::from(whole))
}
