//! What a configuration sets.

use config_groups::{Core, LinkSettings, Service, Settings, Smsbox, User};
use kn_base::{Items, Memory, Octets};
use line_cases::{put_named, put_text};
use route_rules::{LinkKind, LinkRule, Rules};
use sms_record::Address;

/// Puts octets last, behind a slash.
fn put(report: &mut Octets, octets: &Octets) -> Result<(), Memory> {
    report.push(b'/')?;
    put_text(report, octets.as_slice())
}

/// Puts a number last, behind a slash.
fn put_number(report: &mut Octets, number: u64) -> Result<(), Memory> {
    put_named(report, b"/", number)
}

fn put_list(report: &mut Octets, list: &Items<Octets>) -> Result<(), Memory> {
    put_number(report, list.len() as u64)?;
    for octets in list.as_slice() {
        report.push(b';')?;
        put_text(report, octets.as_slice())?;
    }
    Ok(())
}

fn put_truth(report: &mut Octets, truth: bool) -> Result<(), Memory> {
    report.extend_from_slice(if truth { b"/yes" } else { b"/no" })
}

fn put_optional(report: &mut Octets, octets: &Option<Octets>) -> Result<(), Memory> {
    match octets {
        Some(octets) => put(report, octets),
        None => report.extend_from_slice(b"/none"),
    }
}

fn put_sender(report: &mut Octets, sender: &Option<Address>) -> Result<(), Memory> {
    match sender {
        Some(Address::Number { plus, digits }) => {
            report.extend_from_slice(if *plus { b"/+" } else { b"/number " })?;
            put_text(report, digits.as_slice())
        }
        Some(Address::Text(text)) => {
            report.extend_from_slice(b"/text ")?;
            put_text(report, text.as_slice())
        }
        None => report.extend_from_slice(b"/none"),
    }
}

fn put_core(report: &mut Octets, core: &Core) -> Result<(), Memory> {
    report.extend_from_slice(b"core")?;
    put(report, &core.store_file)?;
    put_number(report, u64::from(core.smsbox_port))?;
    put_number(report, u64::from(core.http_workers))?;
    put_number(report, u64::from(core.box_workers))
}

fn put_rules(report: &mut Octets, rules: &Rules) -> Result<(), Memory> {
    put_number(report, rules.outgoing)?;
    put_number(report, rules.incoming)?;
    for rule in rules.links.as_slice() {
        put_rule(report, rule)?;
    }
    Ok(())
}

fn put_rule(report: &mut Octets, rule: &LinkRule) -> Result<(), Memory> {
    report.extend_from_slice(match rule.kind {
        LinkKind::Smpp => b" | rule smpp".as_slice(),
        LinkKind::Ucp => b" | rule ucp".as_slice(),
        LinkKind::Cimd2 => b" | rule cimd2".as_slice(),
    })?;
    put(report, &rule.id)?;
    put_list(report, &rule.denied_ids)?;
    put_list(report, &rule.allowed_ids)?;
    put_list(report, &rule.preferred_ids)?;
    put_list(report, &rule.denied_prefixes)?;
    put_list(report, &rule.allowed_prefixes)?;
    put_list(report, &rule.preferred_prefixes)
}

fn put_link(report: &mut Octets, link: &LinkSettings) -> Result<(), Memory> {
    report.extend_from_slice(b" | link")?;
    put(report, &link.smsc_id)?;
    put(report, &link.host)?;
    put_number(report, u64::from(link.port))?;
    put(report, &link.smsc_username)?;
    put(report, &link.smsc_password)?;
    put(report, &link.system_type)?;
    put_number(report, u64::from(link.max_pending_submits))?;
    put_number(report, u64::from(link.wait_ack))?;
    put_number(report, u64::from(link.keepalive))?;
    put_number(report, u64::from(link.reconnect_delay))
}

fn put_smsbox(report: &mut Octets, smsbox: &Smsbox) -> Result<(), Memory> {
    report.extend_from_slice(b" | smsbox")?;
    put(report, &smsbox.bearerbox_host)?;
    put_number(report, u64::from(smsbox.sendsms_port))?;
    put(report, &smsbox.sendsms_url)?;
    put_sender(report, &smsbox.global_sender)?;
    put(report, &smsbox.reply_couldnotfetch)?;
    put(report, &smsbox.reply_requestfailed)?;
    put(report, &smsbox.reply_emptymessage)
}

/// Puts last how messages are split.
fn put_texts(
    report: &mut Octets,
    split_chars: &Octets,
    split_suffix: &Octets,
    header: &Octets,
    footer: &Octets,
) -> Result<(), Memory> {
    put(report, split_chars)?;
    put(report, split_suffix)?;
    put(report, header)?;
    put(report, footer)
}

fn put_user(report: &mut Octets, user: &User) -> Result<(), Memory> {
    report.extend_from_slice(b" | user")?;
    put(report, &user.username)?;
    put(report, &user.password)?;
    put(report, &user.name)?;
    put(report, &user.default_smsc)?;
    put(report, &user.forced_smsc)?;
    put_sender(report, &user.default_sender)?;
    put_sender(report, &user.faked_sender)?;
    put_number(report, u64::from(user.max_messages))?;
    put_truth(report, user.concatenation)?;
    put_texts(
        report,
        &user.split_chars,
        &user.split_suffix,
        &user.header,
        &user.footer,
    )
}

fn put_service(report: &mut Octets, service: &Service) -> Result<(), Memory> {
    report.extend_from_slice(b" | service")?;
    put(report, &service.keyword)?;
    put_list(report, &service.aliases)?;
    put(report, &service.name)?;
    put_optional(report, &service.text)?;
    put_optional(report, &service.get_url)?;
    put_truth(report, service.omit_empty)?;
    put_number(report, u64::from(service.max_messages))?;
    put_truth(report, service.concatenation)?;
    put_texts(
        report,
        &service.split_chars,
        &service.split_suffix,
        &service.header,
        &service.footer,
    )
}

/// Puts settings last, group by group.
pub fn put_settings(report: &mut Octets, settings: &Settings) -> Result<(), Memory> {
    put_core(report, &settings.core)?;
    put_rules(report, &settings.rules)?;
    for link in settings.links.as_slice() {
        put_link(report, link)?;
    }
    put_smsbox(report, &settings.smsbox)?;
    for user in settings.users.as_slice() {
        put_user(report, user)?;
    }
    for service in settings.services.as_slice() {
        put_service(report, service)?;
    }
    put_named(report, b" | passed ", settings.passed)
}
