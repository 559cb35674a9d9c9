//! What a group `sms-service` sets.

ghost use Rattle.std.specs.Prelude.{◌≡◌, IfOk};
ghost use Rattle.config_groups.specs.Settings as spec;

use crate::field::{list, octets, optional, small, truth, value};
use crate::group::Set;
use crate::settings::texts_of;
use kn_base::{Items, Memory, Octets};
use std::alloc::Global;

/// What answers messages whose first word is a keyword, and how a long answer is split.
#[derive(Drop)]
pub struct Service {
    pub keyword: Octets,
    /// Further keywords.
    pub aliases: Items<Octets>,
    /// The name under which answers are kept; the keyword where none is set.
    pub name: Octets,
    /// The answer. It comes before `get_url` where both are set.
    pub text: Option<Octets>,
    /// The URL whose reply is the answer.
    pub get_url: Option<Octets>,
    /// Whether an empty answer isn't sent.
    pub omit_empty: bool,
    /// The most parts of an answer.
    pub max_messages: u32,
    /// Whether parts are joined again by the receiver's telephone.
    pub concatenation: bool,
    /// Characters behind which an answer is rather split.
    pub split_chars: Octets,
    /// What stands behind each part but the last.
    pub split_suffix: Octets,
    /// What stands in front of each part.
    pub header: Octets,
    /// What stands behind each part.
    pub footer: Octets,
}

/// What a service is called: its keyword, its other keywords, its name.
#[tactic(auto, unfolding(crate::specs::Settings::names_of))]
fn names_of(alloc: Global, group: &[Set]) -> Result<(Octets, Items<Octets>, Octets), Memory>
    ensures { IfOk result (λ names. names ≡ spec.names_of group.now) }
{
    let keyword = octets(alloc, group, b"keyword", &[])?;
    let aliases = list(alloc, group, b"aliases")?;
    let name = octets(alloc, group, b"name", value(group, b"keyword", &[]))?;
    Ok((keyword, aliases, name))
}

/// What a service answers: its text, and its URL.
#[tactic(auto, unfolding(crate::specs::Settings::answers_of))]
fn answers_of(alloc: Global, group: &[Set]) -> Result<(Option<Octets>, Option<Octets>), Memory>
    ensures { IfOk result (λ answers. answers ≡ spec.answers_of group.now) }
{
    let text = optional(alloc, group, b"text")?;
    let get_url = optional(alloc, group, b"get-url")?;
    Ok((text, get_url))
}

/// What a group of a service sets.
#[tactic(auto, unfolding(crate::specs::Settings::service_of))]
pub(crate) fn service_of(alloc: Global, group: &[Set]) -> Result<Service, Memory>
    ensures { IfOk result (λ service. service ≡ spec.service_of group.now) }
{
    let (keyword, aliases, name) = names_of(alloc, group)?;
    let (text, get_url) = answers_of(alloc, group)?;
    let ((split_chars, split_suffix), (header, footer)) = texts_of(alloc, group)?;
    Ok(Service {
        keyword,
        aliases,
        name,
        text,
        get_url,
        omit_empty: truth(group, b"omit-empty", false),
        max_messages: small(group, b"max-messages", 1),
        concatenation: truth(group, b"concatenation", false),
        split_chars,
        split_suffix,
        header,
        footer,
    })
}
