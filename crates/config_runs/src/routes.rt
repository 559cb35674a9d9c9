//! Which links carry a message, and which of them sends it.

ghost use Rattle.std.specs.Prelude.{◌≡◌, ◌<◌, ◌^◌, length, IsTrue};

use config_groups::read_config;
use kn_base::{Charset, MemShelf, Memory, Octets};
use line_cases::{both, cut_at, cut_item, number, octet, octets_of, put_named};
use route_rules::{Fit, LinkKind, Rules, assign, carries, routable, usable};
use sms_lines::coding_of;
use sms_record::{Address, Coding, Sms};
use std::alloc::Global;

/// What each link has behind its own variables.
const LINK: &[u8] = b"\nsmsc = smpp\nhost = h\nport = 1\nsmsc-username = u\nsmsc-password = p";

/// A configuration with links of these variables.
fn config_text(alloc: Global, links: &[u8]) -> Result<Octets, Memory> {
    let mut text = Octets::from_slice(alloc, b"group = core")?;
    let mut rest = links;
    for _ in 0..links.len() {
        if rest.is_empty() {
            break;
        }
        let (link, behind) = cut_item(rest);
        rest = behind;
        text.extend_from_slice(b"\n\ngroup = smsc\n")?;
        text.extend_from_slice(octets_of(alloc, link)?.as_slice())?;
        text.extend_from_slice(LINK)?;
    }
    Ok(text)
}

/// A shelf with this one file, which has the name `a`.
fn shelf_with(alloc: Global, text: Octets) -> Result<MemShelf, Memory> {
    let mut files = Vec::new(alloc);
    files.push((Octets::from_slice(alloc, b"a")?, text))?;
    Ok(MemShelf::new(alloc, files, Vec::new(alloc)))
}

fn is_number(digits: &[u8]) -> bool {
    !digits.is_empty() && digits.iter().all(|octet| octet.is_ascii_digit())
}

/// The octets of a word, of which `-` stands for none.
fn word(alloc: Global, text: &[u8]) -> Result<Octets, Memory> {
    octets_of(alloc, if text == b"-".as_slice() { &[] } else { text })
}

/// The address that a word writes: digits with or without a `+`, or a text.
fn address(alloc: Global, text: &[u8]) -> Result<Address, Memory> {
    let (plus, digits) = match text {
        [b'+', rest @ ..] => (true, rest),
        _ => (false, text),
    };
    if !is_number(digits) {
        return Ok(Address::Text(word(alloc, text)?));
    }
    let digits = Octets::from_slice(alloc, digits)?;
    Ok(Address::Number { plus, digits })
}

/// A header of so many octets.
fn header(alloc: Global, len: u64) -> Result<Octets, Memory> {
    let mut udh = Octets::new(alloc);
    for _ in 0..len {
        udh.push(0)?;
    }
    Ok(udh)
}

/// A message of these addresses, header, body and SMSC id.
fn message(
    alloc: Global,
    (sender, receiver): (Address, Address),
    (udh, body): (Octets, Octets),
    smsc: Octets,
    (coding, total): (Coding, u8),
) -> Sms {
    Sms {
        sender,
        receiver,
        coding,
        class: None,
        udh,
        body,
        total,
        part: 1,
        smsc,
        validity: 0,
        deferred: 0,
        mask: 0,
        url: Octets::new(alloc),
        account: Octets::new(alloc),
        service: Octets::new(alloc),
        charset: Charset::Utf8,
        time: 0,
    }
}

/// Whether each link is up: a `1` or a `0` a link.
fn ups_of(alloc: Global, text: &[u8]) -> Result<Vec<bool>, Memory> {
    let mut ups = Vec::new(alloc);
    for octet in text {
        ups.push(*octet == b'1')?;
    }
    Ok(ups)
}

/// How many messages each link has in flight: a digit a link.
fn flights_of(alloc: Global, text: &[u8]) -> Result<Vec<u64>, Memory> {
    let mut flights = Vec::new(alloc);
    for digit in text {
        flights.push(number(&[*digit]))?;
    }
    Ok(flights)
}

fn fit_name(fit: Fit) -> &'static [u8] {
    match fit {
        Fit::No => b"no ",
        Fit::Plain => b"plain ",
        Fit::Preferred => b"preferred ",
    }
}

/// Whether there are so few links, and as many of both lists.
fn may_assign(rules: &Rules, up: &[bool], flight: &[u64]) -> bool
    ensures few { IsTrue result → length rules.now.links < 2 ^ 32 }
    ensures ups { IsTrue result → length up.now ≡ length rules.now.links }
    ensures flights { IsTrue result → length flight.now ≡ length rules.now.links }
{
    let links = rules.links.len();
    links < 1_000_000 && up.len() == links && flight.len() == links
}

/// Puts last which link sends a message.
fn put_assigned(
    rules: &Rules,
    (up, flight): (&[bool], &[u64]),
    sms: &Sms,
    report: &mut Octets,
) -> Result<(), Memory> {
    if !may_assign(rules, up, flight) {
        return report.extend_from_slice(b"no case");
    }
    match assign(rules, up, flight, sms) {
        Some(link) => put_named(report, b"link ", u64::from(link)),
        None => report.extend_from_slice(b"no link"),
    }
}

/// Puts last how well each link suits a message, and whether some link does.
fn put_fits(rules: &Rules, sms: &Sms, report: &mut Octets) -> Result<(), Memory> {
    for rule in rules.links.as_slice() {
        report.extend_from_slice(fit_name(usable(rule, sms)))?;
    }
    report.extend_from_slice(if routable(rules, sms) {
        b"| routable | ".as_slice()
    } else {
        b"| not routable | ".as_slice()
    })
}

/// Puts last what the links of a configuration are to a message.
fn put_links(
    alloc: Global,
    (up, flight): (&[u8], &[u8]),
    links: &[u8],
    sms: &Sms,
    report: &mut Octets,
) -> Result<(), Memory> {
    let mut shelf = shelf_with(alloc, config_text(alloc, links)?)?;
    let Ok(settings) = read_config(alloc, &mut shelf, b"a") else {
        return report.extend_from_slice(b"no case");
    };
    put_fits(&settings.rules, sms, report)?;
    let (up, flight) = both(ups_of(alloc, up), flights_of(alloc, flight))?;
    put_assigned(
        &settings.rules,
        (up.as_slice(), flight.as_slice()),
        sms,
        report,
    )
}

/// `route RECEIVER SMSC UP FLIGHT LINK | LINK ..`: what each link is to the message `hi` from 123 with this receiver and SMSC id,
/// whether some link carries it, and which link sends it. A link is its variables; UP has `1` or `0` for each, FLIGHT a digit.
pub fn put_route(alloc: Global, text: &[u8], report: &mut Octets) -> Result<(), Memory> {
    let (receiver, text) = cut_at(text, b' ');
    let (smsc, text) = cut_at(text, b' ');
    let (up, text) = cut_at(text, b' ');
    let (flight, links) = cut_at(text, b' ');
    let ends = both(address(alloc, b"123"), address(alloc, receiver))?;
    let texts = both(header(alloc, 0), Octets::from_slice(alloc, b"hi"))?;
    let smsc = word(alloc, smsc)?;
    let sms = message(alloc, ends, texts, smsc, (Coding::Seven, 1));
    put_links(alloc, (up, flight), links, &sms, report)
}

fn kind_of(text: &[u8]) -> LinkKind {
    if text == b"smpp".as_slice() {
        LinkKind::Smpp
    } else if text == b"emi".as_slice() {
        LinkKind::Ucp
    } else {
        LinkKind::Cimd2
    }
}

/// `carries KIND SENDER RECEIVER CODING UDH TOTAL BODY`: whether a link of this kind can carry the message, whose header has UDH octets
/// and which is one of TOTAL parts.
pub fn put_carried(alloc: Global, text: &[u8], report: &mut Octets) -> Result<(), Memory> {
    let (kind, text) = cut_at(text, b' ');
    let (sender, text) = cut_at(text, b' ');
    let (receiver, text) = cut_at(text, b' ');
    let (coding, text) = cut_at(text, b' ');
    let (udh, text) = cut_at(text, b' ');
    let (total, body) = cut_at(text, b' ');
    let ends = both(address(alloc, sender), address(alloc, receiver))?;
    let texts = both(header(alloc, number(udh)), octets_of(alloc, body))?;
    let how = (coding_of(coding), octet(total));
    let sms = message(alloc, ends, texts, Octets::new(alloc), how);
    report.extend_from_slice(if carries(kind_of(kind), &sms) {
        b"carried".as_slice()
    } else {
        b"not carried".as_slice()
    })
}
