//! Requests as people write them, with what they ask for.

ghost use Rattle.config_groups.specs.Ranges.{AreSettings};

use crate::answer::name_of;
use crate::conf::{PLAIN, put_refused, settings_of};
use config_groups::Settings;
use http_text::Head;
use kn_base::{Memory, Octets};
use line_cases::{cut_at, cut_item, octets_of, put_text};
use sendsms_http::asked;
use sms_lines::put_sms;
use sms_record::Sms;
use std::alloc::Global;

/// Whether one of the words between `-` is this one.
fn has_word(text: &[u8], word: &[u8]) -> bool {
    let mut rest = text;
    for _ in 0..text.len() {
        let (first, behind) = cut_at(rest, b'-');
        if first == word {
            return true;
        }
        rest = behind;
    }
    false
}

/// The head of a request, by a target and how it is asked: `get` is a GET of HTTP/1.0 without a body, and `post`, `new` (HTTP/1.1) and
/// `body` differ from it in one thing each; several of them stand between `-`.
fn head_of(alloc: Global, how: &[u8], target: &[u8]) -> Result<Head, Memory> {
    let is_new = has_word(how, b"new");
    Ok(Head {
        get: !has_word(how, b"post"),
        minor: u8::from(is_new),
        target: octets_of(alloc, target)?,
        close: !is_new,
        body: has_word(how, b"body"),
    })
}

/// Puts last what a head asks for under settings, and else the name of the answer that refuses it.
fn put_asked(
    alloc: Global,
    settings: &Settings,
    head: &Head,
    whole: bool,
    report: &mut Octets,
) -> Result<(), Memory>
    requires { AreSettings settings.now }
{
    match asked(alloc, settings, head, 1000) {
        Ok(parts) if whole => put_messages(report, &parts),
        Ok(parts) => put_texts(report, &parts),
        Err(answer) => report.extend_from_slice(name_of(answer)),
    }
}

/// Puts last what a line asks for, which holds a head, and a configuration behind a bar where it isn't the plain one.
fn put_line(alloc: Global, text: &[u8], whole: bool, report: &mut Octets) -> Result<(), Memory> {
    let (request, conf) = cut_item(text);
    let (how, target) = cut_at(request, b' ');
    let head = head_of(alloc, how, target)?;
    match settings_of(alloc, if conf.is_empty() { PLAIN } else { conf }) {
        Ok(settings) => put_asked(alloc, &settings, &head, whole, report),
        Err(fault) => put_refused(report, &fault),
    }
}

/// `request HOW TARGET | CONF`: the text that a request asks for, or the answer that refuses it.
pub fn put_request(alloc: Global, text: &[u8], report: &mut Octets) -> Result<(), Memory> {
    put_line(alloc, text, false, report)
}

/// Puts the texts of messages last.
fn put_texts(report: &mut Octets, parts: &[Sms]) -> Result<(), Memory> {
    for part in parts {
        report.extend_from_slice(b"text ")?;
        put_text(report, part.body.as_slice())?;
    }
    Ok(())
}

/// `message HOW TARGET | CONF`: each message that a request asks for.
pub fn put_message(alloc: Global, text: &[u8], report: &mut Octets) -> Result<(), Memory> {
    put_line(alloc, text, true, report)
}

/// Puts messages last, a line each.
fn put_messages(report: &mut Octets, parts: &[Sms]) -> Result<(), Memory> {
    for part in parts {
        put_sms(report, b"\n        from", part)?;
    }
    Ok(())
}
