//! Frames of SMPP 3.4 that were written out by hand, and what the calls make of them.

use kn_base::{Memory, Octets, read_hex, write_hex};
use line_cases::{cut_at, number, put_named, put_text, words_of};
use smpp_wire::command::ENQUIRE_LINK_RESP;
use smpp_wire::{Body, Frame, Pdu, read_frame, tlv_value, write_pdu, write_tlv};
use std::alloc::Global;

/// Puts octets last that a word stands for: a text behind `'`, hex digits, or as often as a number says before `x`.
fn put_word(alloc: Global, word: &[u8], octets: &mut Octets) -> Result<(), Memory> {
    if let [b'\'', text @ ..] = word {
        return octets.extend_from_slice(text);
    }
    let (times, digits) = cut_at(word, b'x');
    let digits = if digits.is_empty() { word } else { digits };
    let times = if digits.len() == word.len() {
        1
    } else {
        number(times).min(70_000)
    };
    let piece = read_hex(alloc, digits).unwrap_or(Octets::new(alloc));
    for _ in 0..times {
        octets.extend_from_slice(piece.as_slice())?;
    }
    Ok(())
}

/// The octets that words stand for.
fn frame_octets(alloc: Global, text: &[u8]) -> Result<Octets, Memory> {
    let mut octets = Octets::new(alloc);
    for word in words_of(alloc, text)?.iter() {
        put_word(alloc, word, &mut octets)?;
    }
    Ok(octets)
}

/// Puts texts last, each between brackets, behind a name and the octets of the fields that are numbers.
fn put_fields(
    report: &mut Octets,
    name: &[u8],
    octets: &[u8],
    texts: &[&[u8]],
) -> Result<(), Memory> {
    report.extend_from_slice(name)?;
    report.push(b' ')?;
    write_hex(report, octets)?;
    for text in texts {
        report.extend_from_slice(b" [")?;
        put_text(report, text)?;
        report.push(b']')?;
    }
    Ok(())
}

/// Puts the fields of a message last.
fn put_message(report: &mut Octets, body: &Body) -> Result<(), Memory> {
    let Body::Message {
        service_type,
        source_ton,
        source_npi,
        source,
        destination_ton,
        destination_npi,
        destination,
        esm_class,
        protocol_id,
        priority_flag,
        schedule_delivery_time,
        validity_period,
        registered_delivery,
        replace_if_present_flag,
        data_coding,
        sm_default_msg_id,
        short_message,
        tlvs,
    } = *body
    else {
        return Ok(());
    };
    let octets = [
        source_ton,
        source_npi,
        destination_ton,
        destination_npi,
        esm_class,
        protocol_id,
        priority_flag,
        registered_delivery,
        replace_if_present_flag,
        data_coding,
        sm_default_msg_id,
    ];
    let texts = [
        service_type,
        source,
        destination,
        schedule_delivery_time,
        validity_period,
        short_message,
        tlvs,
    ];
    put_fields(report, b"message", &octets, &texts)
}

/// Puts the fields of a body last.
fn put_body(report: &mut Octets, body: &Body) -> Result<(), Memory> {
    match *body {
        Body::Bind {
            system_id,
            password,
            system_type,
            interface_version,
            addr_ton,
            addr_npi,
            address_range,
        } => put_fields(
            report,
            b"bind",
            &[interface_version, addr_ton, addr_npi],
            &[system_id, password, system_type, address_range],
        ),
        Body::BindReply { system_id, tlvs } => {
            put_fields(report, b"bind reply", &[], &[system_id, tlvs])
        }
        Body::Message { .. } => put_message(report, body),
        Body::SubmitReply { message_id } => {
            put_fields(report, b"submit reply", &[], &[message_id])
        }
        Body::DeliverReply => report.extend_from_slice(b"deliver reply"),
        Body::Nothing => report.extend_from_slice(b"nothing"),
        Body::Any(octets) => put_named(report, b"any ", octets.len() as u64),
    }
}

/// Puts last how long a frame is, its command_id, command_status and sequence_number, and its fields.
fn put_whole(report: &mut Octets, pdu: &Pdu, len: usize) -> Result<(), Memory> {
    put_named(report, b"whole ", len as u64)?;
    report.extend_from_slice(b" | ")?;
    for number in [pdu.id, pdu.status, pdu.sequence] {
        write_hex(report, &number.to_be_bytes())?;
        report.push(b' ')?;
    }
    report.extend_from_slice(b"| ")?;
    put_body(report, &pdu.body)
}

/// Puts last what stands in front of octets.
fn put_read(report: &mut Octets, octets: &[u8]) -> Result<(), Memory> {
    match read_frame(octets) {
        Frame::Whole { pdu, len } => put_whole(report, &pdu, len),
        Frame::NeedMore => report.extend_from_slice(b"more"),
        Frame::Bad { at, code } => {
            put_named(report, b"bad at ", at as u64)?;
            put_named(report, b" code ", u64::from(code))
        }
    }
}

/// Puts last what is written of the frame that is read.
fn put_written(alloc: Global, report: &mut Octets, octets: &[u8]) -> Result<(), Memory> {
    let Frame::Whole { pdu, .. } = read_frame(octets) else {
        return report.extend_from_slice(b"no frame");
    };
    let mut again = Octets::new(alloc);
    write_pdu(&mut again, &pdu)?;
    write_hex(report, again.as_slice())
}

/// Puts a frame last whose body has no octets: the answer to an `enquire_link`.
fn put_answer(alloc: Global, report: &mut Octets, sequence: u32) -> Result<(), Memory> {
    let pdu = Pdu {
        id: ENQUIRE_LINK_RESP,
        status: 0,
        sequence,
        body: Body::Nothing,
    };
    let mut octets = Octets::new(alloc);
    write_pdu(&mut octets, &pdu)?;
    write_hex(report, octets.as_slice())
}

/// Puts last what is read of each front, once where those beside it are the same.
fn put_fronts(alloc: Global, report: &mut Octets, octets: &[u8]) -> Result<(), Memory> {
    let mut last = Octets::new(alloc);
    for cut in 0..octets.len() {
        let mut line = Octets::new(alloc);
        put_read(&mut line, &octets[..cut])?;
        line.extend_from_slice(b" | ")?;
        if line.as_slice() != last.as_slice() {
            report.extend_from_slice(line.as_slice())?;
        }
        last = line;
    }
    Ok(())
}

/// Puts last how long the frames are that stand one after the other, and how many octets are left behind them.
fn put_stream(report: &mut Octets, octets: &[u8]) -> Result<(), Memory> {
    let mut rest = octets;
    for _ in 0..octets.len() {
        let Frame::Whole { len, .. } = read_frame(rest) else {
            break;
        };
        put_named(report, b"frame ", len as u64)?;
        report.extend_from_slice(b" | ")?;
        rest = &rest[len..];
    }
    put_named(report, b"left ", rest.len() as u64)
}

/// Puts last the value of the first optional parameter with a tag.
fn put_value(report: &mut Octets, octets: &[u8], tag: u16) -> Result<(), Memory> {
    match tlv_value(octets, tag) {
        Some(value) => write_hex(report, value),
        None => report.extend_from_slice(b"none"),
    }
}

/// Puts an optional parameter of at most 1,000 octets last.
fn put_parameter(alloc: Global, report: &mut Octets, value: &[u8], tag: u16) -> Result<(), Memory> {
    let mut octets = Octets::new(alloc);
    write_tlv(&mut octets, tag, &value[..value.len().min(1_000)])?;
    write_hex(report, octets.as_slice())
}

/// `value TAG WORDS`, `parameter TAG WORDS`: the value with a tag in optional parameters, or the parameter with a value.
fn put_tlv(alloc: Global, kind: &[u8], text: &[u8], report: &mut Octets) -> Result<(), Memory> {
    let (tag, text) = cut_at(text, b' ');
    let tag = number(tag).min(65_535) as u16;
    let octets = frame_octets(alloc, text)?;
    if kind == b"value".as_slice() {
        put_value(report, octets.as_slice(), tag)
    } else {
        put_parameter(alloc, report, octets.as_slice(), tag)
    }
}

/// `frame read WORDS`, `frame written WORDS`, `frame cut WORDS`, `frame stream WORDS`: octets, as words of hex digits or texts.
/// And `frame value TAG WORDS`, `frame parameter TAG WORDS`, `frame answer SEQUENCE`.
pub fn put_frame(alloc: Global, text: &[u8], report: &mut Octets) -> Result<(), Memory> {
    let (kind, text) = cut_at(text, b' ');
    if kind == b"value".as_slice() || kind == b"parameter".as_slice() {
        return put_tlv(alloc, kind, text, report);
    }
    if kind == b"answer".as_slice() {
        return put_answer(alloc, report, number(text).min(1_000_000) as u32);
    }
    let octets = frame_octets(alloc, text)?;
    if kind == b"read".as_slice() {
        put_read(report, octets.as_slice())
    } else if kind == b"written".as_slice() {
        put_written(alloc, report, octets.as_slice())
    } else if kind == b"cut".as_slice() {
        put_fronts(alloc, report, octets.as_slice())
    } else {
        put_stream(report, octets.as_slice())
    }
}
