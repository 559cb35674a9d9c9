//! What is said to a centre.

ghost use Rattle.std.specs.Prelude.{◌≤◌, IfOk, length};
ghost use Rattle.config_groups.specs.Ranges.{IsLogin};
ghost use Rattle.route_rules.specs.declared.link_kind.LinkKind.TheVariants.{Smpp};
ghost use Rattle.sms_record.specs.Record.{IsSms};

use crate::octets_in;
use config_groups::LinkSettings;
use kn_base::{Memory, Octets, write_hex};
use line_cases::{cut_at, number, put_named};
use link_core::{Framed, Heard, LinkCore, Out};
use route_rules::{LinkKind, carries};
use smpp_link::SmppCore;
use sms_record::{Sms, read_sms};
use std::alloc::Global;

/// The most octets of a type of system.
const MOST_TYPE: usize = 12;

/// The first time that no clock reads.
const END_OF_TIME: u64 = 1 << 37;

/// A link that logs in as `gate`, with the password `secret`.
fn settings_of(alloc: Global, system_type: &[u8]) -> Result<LinkSettings, Memory>
    ensures login { IfOk result (λ settings. IsLogin Smpp settings.smsc_username settings.smsc_password) }
    ensures system_type { IfOk result (λ settings. length settings.system_type ≤ 12) }
{
    let smsc_username = Octets::from_slice(alloc, b"gate")?;
    let smsc_password = Octets::from_slice(alloc, b"secret")?;
    let system_type = Octets::from_slice(alloc, &system_type[..system_type.len().min(MOST_TYPE)])?;
    Ok(LinkSettings {
        smsc_id: Octets::new(alloc),
        host: Octets::new(alloc),
        port: 1,
        smsc_username,
        smsc_password,
        system_type,
        max_pending_submits: 10,
        wait_ack: 60,
        keepalive: 30,
        reconnect_delay: 10,
    })
}

/// The protocol of that link.
pub(crate) fn core_of(alloc: Global, system_type: &[u8]) -> Result<SmppCore, Memory> {
    SmppCore::new(alloc, &settings_of(alloc, system_type)?)
}

/// What answers a frame, well or for want of room, where anything does.
fn answer_of<C: LinkCore>(
    alloc: Global,
    core: &C,
    octets: &[u8],
    good: bool,
) -> Result<Octets, Memory> {
    let Framed::Whole { heard, .. } = core.read(alloc, octets)? else {
        return Ok(Octets::new(alloc));
    };
    match heard {
        Heard::Report { tag, .. } => core.write(alloc, &Out::ReportReply { tag }),
        Heard::Message { tag, .. } => core.write(alloc, &Out::MessageReply { tag, good }),
        Heard::Keep { tag } => core.write(alloc, &Out::KeepReply { tag }),
        Heard::Bye { tag } => core.write(alloc, &Out::ByeReply { tag }),
        Heard::Strange { tag, id } => core.write(alloc, &Out::Nack { tag, id }),
        _ => Ok(Octets::new(alloc)),
    }
}

/// The frame of a message, where SMPP carries it.
fn submit_of(alloc: Global, tag: u32, number: u64, now: u64, sms: Sms) -> Result<Octets, Memory>
    requires { IsSms sms }
{
    let early = sms.time <= now && now < END_OF_TIME && number < 1 << 63;
    if !early || !carries(LinkKind::Smpp, &sms) {
        return Ok(Octets::new(alloc));
    }
    core_of(alloc, b"")?.write(
        alloc,
        &Out::Submit {
            tag,
            number,
            sms,
            now,
        },
    )
}

/// The frame of a message whose number, time and record words hold.
fn submit_in(alloc: Global, tag: u32, text: &[u8]) -> Result<Octets, Memory> {
    let (message, text) = cut_at(text, b' ');
    let (now, record) = cut_at(text, b' ');
    let record = octets_in(alloc, record)?;
    match read_sms(alloc, record.as_slice()) {
        Ok((sms, _)) => submit_of(alloc, tag, number(message), number(now), sms),
        Err(_) => Ok(Octets::new(alloc)),
    }
}

/// The frame of what a word says.
fn said(alloc: Global, kind: &[u8], tag: u32, text: &[u8]) -> Result<Octets, Memory> {
    if kind == b"login".as_slice() {
        core_of(alloc, text)?.write(alloc, &Out::Login { tag })
    } else if kind == b"keep".as_slice() {
        core_of(alloc, b"")?.write(alloc, &Out::Keep { tag })
    } else {
        submit_in(alloc, tag, text)
    }
}

/// The tag behind another one.
fn next_of<C: LinkCore>(core: &C, tag: u32) -> u64 {
    u64::from(core.next_tag(if tag == 0 { None } else { Some(tag) }))
}

/// All cases but `hear` and `cut`.
pub(crate) fn put_case(
    alloc: Global,
    kind: &[u8],
    text: &[u8],
    report: &mut Octets,
) -> Result<(), Memory> {
    if kind == b"answer".as_slice() || kind == b"full".as_slice() {
        let octets = octets_in(alloc, text)?;
        let good = kind == b"answer".as_slice();
        let frame = answer_of(alloc, &core_of(alloc, b"")?, octets.as_slice(), good)?;
        return write_hex(report, frame.as_slice());
    }
    let (tag, text) = cut_at(text, b' ');
    let tag = number(tag).min(u64::from(u32::MAX)) as u32;
    if kind == b"next".as_slice() {
        return put_named(report, b"next ", next_of(&core_of(alloc, b"")?, tag));
    }
    let frame = said(alloc, kind, tag, text)?;
    write_hex(report, frame.as_slice())
}
