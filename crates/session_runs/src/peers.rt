//! The two kinds of peers of a case: octets that come, and a centre that follows a script.

ghost use Rattle.std.specs.Prelude.{IfOk};
ghost use Rattle.fake_centre.specs.CentrePeer.{peer_course};
ghost use Rattle.kn_base.specs.Course.{IsFresh};
ghost use Rattle.kn_base.specs.MemCourse.{mem_course};

use crate::case::Case;
use fake_centre::{Centre, CentrePeer, CentreReply, Script};
use kn_base::{HexFault, MemPeer, MemTake, Memory, read_hex};
use line_cases::{cut_at, number, octets_of, put_last, words_of};
use route_rules::LinkKind;
use std::alloc::Global;

/// One take.
fn take_of(alloc: Global, word: &[u8]) -> Result<MemTake, Memory> {
    if word == b"-".as_slice() {
        return Ok(MemTake::Quiet);
    }
    match read_hex(alloc, word) {
        Ok(octets) if !octets.is_empty() => Ok(MemTake::Bytes(octets)),
        Err(HexFault::Memory) => Err(Memory),
        _ => Ok(MemTake::Quiet),
    }
}

/// A list with the number, where there is one.
pub fn numbers_of(alloc: Global, number: Option<u64>) -> Result<Vec<u64>, Memory> {
    let mut numbers = Vec::new(alloc);
    if let Some(number) = number {
        numbers.push(number)?;
    }
    Ok(numbers)
}

/// A peer that says these takes, and then is quiet so often. One call of it may fail.
pub fn heard_peer(
    alloc: Global,
    text: &[u8],
    quiets: u64,
    failing: Option<u64>,
) -> Result<MemPeer, Memory>
    ensures { IfOk result (λ peer. IsFresh (mem_course peer)) }
{
    let mut takes = Vec::new(alloc);
    for word in words_of(alloc, text)?.iter() {
        put_last(&mut takes, take_of(alloc, word))?;
    }
    for _ in 0..quiets {
        takes.push(MemTake::Quiet)?;
    }
    Ok(MemPeer::new(alloc, takes, numbers_of(alloc, failing)?))
}

/// `good:ID`, `refuse:STATUS`, `silent`.
fn reply_of(alloc: Global, word: &[u8]) -> Result<CentreReply, Memory> {
    let (kind, text) = cut_at(word, b':');
    if kind == b"good".as_slice() {
        Ok(CentreReply::Good(octets_of(alloc, text)?))
    } else if kind == b"refuse".as_slice() {
        Ok(CentreReply::Refuse(number(text).min(4_294_967_295) as u32))
    } else {
        Ok(CentreReply::Silent)
    }
}

/// The script of a case.
fn script_of(alloc: Global, case: Case) -> Result<Script, Memory> {
    let mut replies = Vec::new(alloc);
    for word in words_of(alloc, case.replies)?.iter() {
        put_last(&mut replies, reply_of(alloc, word))?;
    }
    Ok(Script {
        login: number(case.login).min(4_294_967_295) as u32,
        replies,
        reports: Vec::new(alloc),
        messages: Vec::new(alloc),
    })
}

/// A centre that follows the script of a case.
pub fn centre_peer(alloc: Global, case: Case) -> Result<CentrePeer, Memory>
    ensures { IfOk result (λ peer. IsFresh (peer_course peer)) }
{
    let centre = Centre::new(alloc, LinkKind::Smpp, script_of(alloc, case)?);
    Ok(CentrePeer::new(alloc, centre))
}
