//! The formats as others write them. Cases are lines of standard input, and what is read of each and written again is a line
//! of standard output. Behind each function that takes a case stands what its line holds.
#![tactic(auto)]

mod alphabet;
mod answer;
mod conf;
mod frame;
mod head;
mod record;
mod reports;
mod request;
mod session;
mod split;
mod store;
mod talk;
mod template;

use kn_base::{Memory, Octets};
use line_cases::{Cases, cut_at, run_lines};
use std::alloc::Global;
use std::process::ExitCode;

/// The cases of the formats.
struct FormatCases;

impl Cases for FormatCases {
    fn report(&self, alloc: Global, line: &[u8], report: &mut Octets) -> Result<(), Memory> {
        let (kind, text) = cut_at(line, b' ');
        report.extend_from_slice(b"    ")?;
        put_case(alloc, kind, text, report)?;
        report.push(b'\n')
    }
}

/// Puts last what a case came to.
fn put_case(alloc: Global, kind: &[u8], text: &[u8], report: &mut Octets) -> Result<(), Memory> {
    if kind == b"alphabet".as_slice() {
        alphabet::put_alphabet(alloc, text, report)
    } else if kind == b"parts".as_slice() {
        split::put_split(alloc, text, report)
    } else if kind == b"joined".as_slice() {
        split::put_joined(alloc, text, report)
    } else if kind == b"joint".as_slice() {
        split::put_joint(alloc, text, report)
    } else if kind == b"template".as_slice() {
        template::put_template(alloc, text, report)
    } else if kind == b"internal-id".as_slice() {
        template::put_internal_id(alloc, text, report)
    } else if kind == b"record".as_slice() {
        record::put_record(alloc, text, report)
    } else if kind == b"entry".as_slice() {
        record::put_entry(alloc, text, report)
    } else if kind == b"header".as_slice() {
        record::put_header(alloc, text, report)
    } else if kind == b"frame".as_slice() {
        frame::put_frame(alloc, text, report)
    } else if kind == b"reports".as_slice() {
        reports::put_reports(alloc, text, report)
    } else {
        put_http(alloc, kind, text, report)
    }
}

/// `head`, `heard`, `request`, `message`, `answer` and `session`.
fn put_http(alloc: Global, kind: &[u8], text: &[u8], report: &mut Octets) -> Result<(), Memory> {
    if kind == b"head".as_slice() {
        head::put_head(alloc, text, report)
    } else if kind == b"heard".as_slice() {
        head::put_heard(alloc, text, report)
    } else if kind == b"request".as_slice() {
        request::put_request(alloc, text, report)
    } else if kind == b"message".as_slice() {
        request::put_message(alloc, text, report)
    } else if kind == b"answer".as_slice() {
        answer::put_answer(alloc, text, report)
    } else {
        session::put_session(alloc, text, report)
    }
}

fn main(rt: HostRuntime) -> ExitCode {
    run_lines(rt, rt.alloc(), &FormatCases)
}
