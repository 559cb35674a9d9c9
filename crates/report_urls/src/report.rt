//! What a centre said of a message, as the entries of the store record it.

ghost use Rattle.std.specs.Prelude.{◌≡◌, IfOk};
ghost use Rattle.report_urls.specs.Report as spec;

use gate_entries::{Acked, Cause, Rejected, Reported};
use kn_base::{Memory, Octets, write_decimal};
use sms_record::Kind;
use std::alloc::Global;

/// What a centre said of a message.
#[derive(Drop)]
pub(crate) struct Report {
    /// What became of the message.
    pub(crate) kind: Kind,
    /// The id of the centre's link.
    pub(crate) smsc: Octets,
    /// The id that the centre gave the message, or empty.
    pub(crate) foreign: Octets,
    /// The report's text, or empty.
    pub(crate) text: Octets,
    /// What the centre answered: the report's text, or the code by which it refused the message, or nothing.
    pub(crate) answer: Octets,
    /// When, in Unix seconds.
    pub(crate) time: u64,
}

/// Why a message was given up: the centre's code in decimal, where it was the centre.
fn cause_text(alloc: Global, cause: Cause) -> Result<Octets, Memory>
    ensures { IfOk result (λ text. text ≡ spec.cause_text cause) }
{
    let mut text = Octets::new(alloc);
    if let Cause::Centre(code) = cause {
        write_decimal(&mut text, u64::from(code))?;
    }
    Ok(text)
}

/// Copies of two texts.
pub(crate) fn copy_two(
    alloc: Global,
    first: &Octets,
    second: &Octets,
) -> Result<(Octets, Octets), Memory>
    ensures { IfOk result (λ copies. (copies.0 ≡ first.now) × (copies.1 ≡ second.now)) }
{
    let first = Octets::from_slice(alloc, first.as_slice())?;
    let second = Octets::from_slice(alloc, second.as_slice())?;
    Ok((first, second))
}

impl Report {
    /// That a centre took a message.
    pub(crate) fn of_acked(alloc: Global, acked: &Acked) -> Result<Report, Memory>
        ensures { IfOk result (λ report. report ≡ spec.acked_report acked.now) }
    {
        let (smsc, foreign) = copy_two(alloc, &acked.smsc, &acked.foreign)?;
        Ok(Report {
            kind: Kind::Sent,
            smsc,
            foreign,
            text: Octets::new(alloc),
            answer: Octets::new(alloc),
            time: acked.time,
        })
    }

    /// That a message was given up.
    pub(crate) fn of_rejected(alloc: Global, rejected: &Rejected) -> Result<Report, Memory>
        ensures { IfOk result (λ report. report ≡ spec.rejected_report rejected.now) }
    {
        let smsc = Octets::from_slice(alloc, rejected.smsc.as_slice())?;
        let answer = cause_text(alloc, rejected.cause)?;
        Ok(Report {
            kind: Kind::Refused,
            smsc,
            foreign: Octets::new(alloc),
            text: Octets::new(alloc),
            answer,
            time: rejected.time,
        })
    }

    /// What a centre reported.
    pub(crate) fn of_reported(alloc: Global, reported: &Reported) -> Result<Report, Memory>
        ensures { IfOk result (λ report. report ≡ spec.reported_report reported.now) }
    {
        let (smsc, foreign) = copy_two(alloc, &reported.smsc, &reported.foreign)?;
        let (text, answer) = copy_two(alloc, &reported.text, &reported.text)?;
        Ok(Report {
            kind: reported.kind,
            smsc,
            foreign,
            text,
            answer,
            time: reported.time,
        })
    }
}
