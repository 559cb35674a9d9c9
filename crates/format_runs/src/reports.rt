//! Lists of messages that wait for a report: what is added, found and taken, word by word.

use crate::record::message_without_body;
use dlr_table::{Awaited, Reports};
use kn_base::{Memory, Octets, write_decimal};
use line_cases::{Acts, cut_at, number, put_acts};
use std::alloc::Global;

/// The lists of a case.
#[derive(Drop)]
struct ReportActs {
    reports: Reports,
}

/// Puts the number of a message last, and `none` where there is none.
fn put_message(report: &mut Octets, message: Option<u64>) -> Result<(), Memory> {
    match message {
        Some(message) => write_decimal(report, message),
        None => report.extend_from_slice(b"none"),
    }
}

/// The message of a number.
fn awaited_of(alloc: Global, message: u64) -> Result<Awaited, Memory> {
    let sms = message_without_body(alloc)?;
    Ok(Awaited { message, sms })
}

impl ReportActs {
    /// Adds a message under a key.
    fn add(
        &mut self,
        alloc: Global,
        smsc: &[u8],
        foreign: &[u8],
        message: u64,
    ) -> Result<(), Memory> {
        match self.reports.add(smsc, foreign, awaited_of(alloc, message)?) {
            Ok(()) => Ok(()),
            Err(_) => Err(Memory),
        }
    }

    /// The number of the message that is found under a key.
    fn found(&self, smsc: &[u8], foreign: &[u8]) -> Option<u64> {
        match self.reports.find(smsc, foreign) {
            Some(awaited) => Some(awaited.message),
            None => None,
        }
    }

    /// The number of the message that is taken under a key.
    fn taken(&mut self, smsc: &[u8], foreign: &[u8]) -> Option<u64> {
        match self.reports.close(smsc, foreign) {
            Some(awaited) => Some(awaited.message),
            None => None,
        }
    }
}

impl Acts for ReportActs {
    fn act(&mut self, alloc: Global, word: &[u8], report: &mut Octets) -> Result<(), Memory> {
        let (name, rest) = cut_at(word, b'/');
        let (smsc, rest) = cut_at(rest, b'/');
        let (foreign, message) = cut_at(rest, b'/');
        match name {
            b"add" => {
                self.add(alloc, smsc, foreign, number(message))?;
                report.extend_from_slice(b"added")
            }
            b"reserve" => {
                self.reports.reserve(smsc, foreign)?;
                report.extend_from_slice(b"room")
            }
            b"find" => put_message(report, self.found(smsc, foreign)),
            b"close" => put_message(report, self.taken(smsc, foreign)),
            _ => write_decimal(report, self.reports.count() as u64),
        }
    }
}

/// `reports WORD ..`, of these words: `add/SMSC/FOREIGN/NUMBER`, `reserve/SMSC/FOREIGN`, `find/SMSC/FOREIGN`,
/// `close/SMSC/FOREIGN` and `count`.
pub fn put_reports(alloc: Global, text: &[u8], report: &mut Octets) -> Result<(), Memory> {
    let mut acts = ReportActs {
        reports: Reports::new(alloc),
    };
    put_acts(alloc, &mut acts, text, report)
}
