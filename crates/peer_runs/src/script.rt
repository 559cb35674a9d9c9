//! Scripts of a centre, as words.

use fake_centre::{CentreReply, Script};
use kn_base::{Memory, Octets};
use line_cases::{both, cut_at, cut_item, number, octets_of, put_last, words_of};
use link_core::{arrival, heard_address, heard_body};
use sms_lines::coding_of;
use sms_record::{Address, Sms};
use std::alloc::Global;

/// `good:ID`, `refuse:STATUS`, `silent`.
fn reply_of(alloc: Global, word: &[u8]) -> Result<CentreReply, Memory> {
    let (kind, text) = cut_at(word, b':');
    if kind == b"good".as_slice() {
        Ok(CentreReply::Good(octets_of(alloc, text)?))
    } else if kind == b"refuse".as_slice() {
        Ok(CentreReply::Refuse(number(text).min(4_294_967_295) as u32))
    } else {
        Ok(CentreReply::Silent)
    }
}

fn replies_of(alloc: Global, text: &[u8]) -> Result<Vec<CentreReply>, Memory> {
    let mut replies = Vec::new(alloc);
    for word in words_of(alloc, text)?.iter() {
        put_last(&mut replies, reply_of(alloc, word))?;
    }
    Ok(replies)
}

/// `BEHIND:ID:STATE`.
fn report_of(alloc: Global, word: &[u8]) -> Result<(u32, Octets, Octets), Memory> {
    let (behind, text) = cut_at(word, b':');
    let (foreign, state) = cut_at(text, b':');
    let (foreign, state) = both(octets_of(alloc, foreign), octets_of(alloc, state))?;
    Ok((number(behind).min(4_294_967_295) as u32, foreign, state))
}

fn reports_of(alloc: Global, text: &[u8]) -> Result<Vec<(u32, Octets, Octets)>, Memory> {
    let mut reports = Vec::new(alloc);
    for word in words_of(alloc, text)?.iter() {
        put_last(&mut reports, report_of(alloc, word))?;
    }
    Ok(reports)
}

/// A number with or without a `+`, or a text.
fn address_of(alloc: Global, text: &[u8]) -> Result<Address, Memory> {
    heard_address(alloc, false, octets_of(alloc, text)?.as_slice())
}

/// `SENDER:RECEIVER:CODING:HEADER:BODY`.
fn message_of(alloc: Global, word: &[u8]) -> Result<Sms, Memory> {
    let (sender, text) = cut_at(word, b':');
    let (receiver, text) = cut_at(text, b':');
    let (coding, text) = cut_at(text, b':');
    let (header, body) = cut_at(text, b':');
    let coding = coding_of(coding);
    let parties = both(address_of(alloc, sender), address_of(alloc, receiver))?;
    let (header, body) = both(octets_of(alloc, header), octets_of(alloc, body))?;
    let body = heard_body(alloc, coding, body.as_slice())?;
    Ok(arrival(alloc, parties, coding, None, header, body))
}

fn messages_of(alloc: Global, text: &[u8]) -> Result<Vec<Sms>, Memory> {
    let mut messages = Vec::new(alloc);
    for word in words_of(alloc, text)?.iter() {
        put_last(&mut messages, message_of(alloc, word))?;
    }
    Ok(messages)
}

/// `LOGIN | REPLY .. | REPORT .. | MESSAGE ..`: a script, and what stands behind it.
pub fn cut_script(alloc: Global, text: &[u8]) -> Result<(Script, &[u8]), Memory> {
    let (login, text) = cut_item(text);
    let (replies, text) = cut_item(text);
    let (reports, text) = cut_item(text);
    let (messages, text) = cut_item(text);
    let (replies, reports) = both(replies_of(alloc, replies), reports_of(alloc, reports))?;
    let script = Script {
        login: number(login).min(4_294_967_295) as u32,
        replies,
        reports,
        messages: messages_of(alloc, messages)?,
    };
    Ok((script, text))
}
