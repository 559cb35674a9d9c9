//! Forms of requests as people write them. Each line is a query and, behind a bar, what its configuration says of the user and of all; what
//! comes of it is a line of standard output: the form, or the name of the first variable that is wrong.
#![tactic(auto)]

mod form;

use config_groups::{Settings, read_config};
use http_text::{Answer, Spot};
use kn_base::{MemShelf, Memory, Octets};
use line_cases::{Cases, both, cut_item, octets_of, run_lines};
use sendsms_form::{read_form, read_pairs};
use std::alloc::Global;
use std::process::ExitCode;

/// What stands in each configuration before what a case says: a user follows.
const FRONT: &[u8] = b"group = core\\n\\ngroup = sendsms-user\\nusername = u\\npassword = p\\n";

/// The name of its file.
const NAME: &[u8] = b"gate.conf";

/// The cases of forms.
struct FormCases;

impl Cases for FormCases {
    fn report(&self, alloc: Global, line: &[u8], report: &mut Octets) -> Result<(), Memory> {
        let (query, conf) = cut_item(line);
        report.extend_from_slice(b"    ")?;
        match settings_of(alloc, conf)? {
            Some(settings) => put_query(alloc, &settings, query, report)?,
            None => report.extend_from_slice(b"no configuration")?,
        }
        report.push(b'\n')
    }
}

/// A shelf with one file.
fn shelf_of(alloc: Global, conf: &[u8]) -> Result<MemShelf, Memory> {
    let mut text = octets_of(alloc, FRONT)?;
    let rest = octets_of(alloc, conf)?;
    text.extend_from_slice(rest.as_slice())?;
    let mut files = Vec::new(alloc);
    files.push(both(Octets::from_slice(alloc, NAME), Ok(text))?)?;
    Ok(MemShelf::new(alloc, files, Vec::new(alloc)))
}

/// What a configuration sets.
fn settings_of(alloc: Global, conf: &[u8]) -> Result<Option<Settings>, Memory> {
    let mut shelf = shelf_of(alloc, conf)?;
    match read_config(alloc, &mut shelf, NAME) {
        Ok(settings) => Ok(Some(settings)),
        Err(_) => Ok(None),
    }
}

/// Puts last what a query of the first user comes to.
fn put_query(
    alloc: Global,
    settings: &Settings,
    query: &[u8],
    report: &mut Octets,
) -> Result<(), Memory> {
    let pairs = read_pairs(alloc, query)?;
    let Some(user) = settings.users.as_slice().first() else {
        return report.extend_from_slice(b"no user");
    };
    match read_form(
        alloc,
        user,
        &settings.smsbox.global_sender,
        pairs.as_slice(),
    ) {
        Ok(form) => form::put_form(report, &form),
        Err(answer) => report.extend_from_slice(name_of(answer)),
    }
}

/// The name of a variable that is wrong.
fn name_of(answer: Answer) -> &'static [u8] {
    match answer {
        Answer::BadRequest(Spot::To) => b"to",
        Answer::BadRequest(Spot::From) => b"from",
        Answer::BadRequest(Spot::Coding) => b"coding",
        Answer::BadRequest(Spot::Mclass) => b"mclass",
        Answer::BadRequest(Spot::Charset) => b"charset",
        Answer::BadRequest(Spot::Udh) => b"udh",
        Answer::BadRequest(spot) => later_name_of(spot),
        _ => b"another answer",
    }
}

fn later_name_of(spot: Spot) -> &'static [u8] {
    match spot {
        Spot::Smsc => b"smsc",
        Spot::Validity => b"validity",
        Spot::Deferred => b"deferred",
        Spot::DlrMask => b"dlr-mask",
        Spot::DlrUrl => b"dlr-url",
        Spot::Account => b"account",
        Spot::Text => b"text",
        _ => b"another variable",
    }
}

fn main(rt: HostRuntime) -> ExitCode {
    run_lines(rt, rt.alloc(), &FormCases)
}
