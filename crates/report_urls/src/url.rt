//! The URL that an entry calls.

ghost use Rattle.std.specs.Prelude.{◌≡◌, ◌&&◌, ◌<◌, ◌^◌, IfOk};
ghost use Rattle.url_escapes.specs.Expansion.{expanded};
ghost use Rattle.url_escapes.specs.Words.{is_filled};
ghost use Rattle.report_urls.specs.Report.{acked_report, rejected_report, reported_report};
ghost use Rattle.report_urls.specs.ReportUrl.{report_url, report_facts, asks_for as mask_asks_for};

use crate::facts::facts_of;
use crate::mask::asks_for;
use crate::report::Report;
use gate_entries::{Acked, Rejected, Reported};
use kn_base::{Memory, Octets};
use sms_record::{Kind, Sms};
use std::alloc::Global;
use url_escapes::{Style, expand};

/// Whether a request asks for a kind of reports, and names a URL.
fn is_asked(kind: Kind, sms: &Sms) -> bool
    ensures { result ≡ (mask_asks_for kind sms.now && is_filled sms.now.url) }
{
    asks_for(kind, sms) && !sms.url.as_slice().is_empty()
}

/// The URL of a request, with its escapes filled.
fn filled(
    alloc: Global,
    birth: u64,
    report: Report,
    number: u64,
    sms: &Sms,
) -> Result<Octets, Memory>
    requires { report.time < 2 ^ 37 }
    ensures { IfOk result (λ url. url ≡ expanded sms.now.url (report_facts birth report number sms.now) Style.Url) }
{
    let facts = facts_of(alloc, birth, report, number, sms)?;
    expand(alloc, sms.url.as_slice(), &facts, Style::Url)
}

/// The URL that is called because a centre took a message, in the store of this birth: none where the message's mask doesn't ask for that, or
/// it has no URL. `Memory`.
pub fn acked_url(
    alloc: Global,
    birth: u64,
    acked: &Acked,
    sms: &Sms,
) -> Result<Option<Octets>, Memory>
    requires { acked.now.time < 2 ^ 37 }
    ensures { IfOk result (λ url. url ≡ report_url birth (acked_report acked.now) acked.now.message sms.now) }
{
    if !is_asked(Kind::Sent, sms) {
        return Ok(None);
    }
    let report = Report::of_acked(alloc, acked)?;
    Ok(Some(filled(alloc, birth, report, acked.message, sms)?))
}

/// The URL that is called because a message was given up. `Memory`.
pub fn rejected_url(
    alloc: Global,
    birth: u64,
    rejected: &Rejected,
    sms: &Sms,
) -> Result<Option<Octets>, Memory>
    requires { rejected.now.time < 2 ^ 37 }
    ensures { IfOk result (λ url. url ≡ report_url birth (rejected_report rejected.now) rejected.now.message sms.now) }
{
    if !is_asked(Kind::Refused, sms) {
        return Ok(None);
    }
    let report = Report::of_rejected(alloc, rejected)?;
    Ok(Some(filled(alloc, birth, report, rejected.message, sms)?))
}

/// The URL that is called because a centre reported on the message of a number. `Memory`.
pub fn reported_url(
    alloc: Global,
    birth: u64,
    reported: &Reported,
    number: u64,
    sms: &Sms,
) -> Result<Option<Octets>, Memory>
    requires { reported.now.time < 2 ^ 37 }
    ensures { IfOk result (λ url. url ≡ report_url birth (reported_report reported.now) number sms.now) }
{
    if !is_asked(reported.kind, sms) {
        return Ok(None);
    }
    let report = Report::of_reported(alloc, reported)?;
    Ok(Some(filled(alloc, birth, report, number, sms)?))
}
