//! What the group `smsbox` sets.

ghost use Rattle.std.specs.Prelude.{◌≡◌, IfOk};
ghost use Rattle.config_groups.specs.Settings as spec;

use crate::field::{octets, port, sender};
use crate::group::Set;
use kn_base::{Memory, Octets};
use sms_record::Address;
use std::alloc::Global;

const NOT_FETCHED: &[u8] = b"Could not fetch content, sorry.";

const FAILED: &[u8] = b"Request Failed";

const EMPTY: &[u8] = b"<Empty reply from service provider>";

const HOST: &[u8] = b"localhost";

const SENDSMS: &[u8] = b"/cgi-bin/sendsms";

/// Where sendsms is served, and what services answer where they have nothing to say.
#[derive(Drop)]
pub struct Smsbox {
    pub bearerbox_host: Octets,
    pub sendsms_port: u16,
    /// The path of sendsms.
    pub sendsms_url: Octets,
    /// The sender of messages that name none.
    pub global_sender: Option<Address>,
    /// What is answered where a URL's reply is no answer.
    pub reply_couldnotfetch: Octets,
    /// What is answered where a URL can't be asked.
    pub reply_requestfailed: Octets,
    /// What is answered in place of an empty text.
    pub reply_emptymessage: Octets,
}

/// The replies of a group.
#[derive(Drop)]
struct Replies {
    couldnotfetch: Octets,
    requestfailed: Octets,
    emptymessage: Octets,
}

fn replies_of(alloc: Global, group: &[Set]) -> Result<Replies, Memory>
    ensures { IfOk result (λ replies. replies ≡ spec.replies_of group.now) }
{
    let couldnotfetch = octets(alloc, group, b"reply-couldnotfetch", NOT_FETCHED)?;
    let requestfailed = octets(alloc, group, b"reply-requestfailed", FAILED)?;
    let emptymessage = octets(alloc, group, b"reply-emptymessage", EMPTY)?;
    Ok(Replies {
        couldnotfetch,
        requestfailed,
        emptymessage,
    })
}

/// What a group of smsbox sets.
pub(crate) fn smsbox_of(alloc: Global, group: &[Set]) -> Result<Smsbox, Memory>
    ensures { IfOk result (λ smsbox. smsbox ≡ spec.smsbox_of group.now) }
{
    let replies = replies_of(alloc, group)?;
    let bearerbox_host = octets(alloc, group, b"bearerbox-host", HOST)?;
    let sendsms_url = octets(alloc, group, b"sendsms-url", SENDSMS)?;
    let global_sender = sender(alloc, group, b"global-sender")?;
    Ok(Smsbox {
        bearerbox_host,
        sendsms_port: port(group, b"sendsms-port", 13_013),
        sendsms_url,
        global_sender,
        reply_couldnotfetch: replies.couldnotfetch,
        reply_requestfailed: replies.requestfailed,
        reply_emptymessage: replies.emptymessage,
    })
}
