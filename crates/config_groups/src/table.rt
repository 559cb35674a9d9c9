//! The table of all variables: which groups have each, what it may hold, and whether it is needed. Its rows stand in the order of
//! docs/FORMATS.md, and in the same order in `specs/Table.antt`.

ghost use Rattle.std.specs.Prelude.{◌≡◌, map};
ghost use Rattle.config_groups.specs.Table as spec;

use Need::{Always, Free, Without};
use Range::{Any, Of, Protocol, Text};
use Section::{Cimd2, Core, Every, Link, Service, Smpp, Smsbox, Split, Ucp, User};
use config_values::Grammar::{
    Characters, Digits, List, Number, Octets, Path, Printable, Sender, Truth, Utf8, Word,
};
use config_values::{Grammar, holds};
use route_rules::LinkKind;

/// Which groups have a variable.
#[derive(Clone, Copy)]
pub(crate) enum Section {
    /// Each group.
    Every,
    Core,
    /// `smsc`.
    Link,
    /// `smsc` with the protocol SMPP.
    Smpp,
    /// `smsc` with the protocol UCP.
    Ucp,
    /// `smsc` with the protocol CIMD2.
    Cimd2,
    Smsbox,
    /// `sendsms-user`.
    User,
    /// `sms-service`.
    Service,
    /// `sendsms-user` and `sms-service`, which have messages split.
    Split,
}

/// What a variable may hold.
#[derive(Clone, Copy)]
pub(crate) enum Range {
    Any,
    Of(Grammar),
    /// The name of a protocol.
    Protocol,
    /// UTF-8 that goes into each part of a message: all such texts of a group have at most 30 characters.
    Text,
}

/// Whether a variable has to stand in its groups.
#[derive(Clone, Copy)]
pub(crate) enum Need {
    Free,
    Always,
    /// Unless the variable of this name does.
    Without(&'static [u8]),
}

/// A variable: which groups have it, its name, what it may hold, and whether it has to stand.
#[derive(Clone, Copy)]
pub(crate) struct Row(
    pub(crate) Section,
    pub(crate) &'static [u8],
    pub(crate) Range,
    pub(crate) Need,
);

/// The name of the variable that says of which kind a group is.
pub(crate) const GROUP: &[u8] = b"group";

/// The kind of the group that has to stand.
pub(crate) const CORE: &[u8] = b"core";

/// The name of the variable that says what a link speaks.
pub(crate) const PROTOCOL: &[u8] = b"smsc";

const NAME: Range = Of(Octets { least: 1, most: 64 });

const ID: Range = Of(Octets { least: 0, most: 64 });

const FILE_OR_HOST: Range = Of(Octets {
    least: 1,
    most: 255,
});

const SYSTEM: Range = Of(Octets { least: 0, most: 12 });

const TEMPLATE: Range = Of(Octets {
    least: 0,
    most: 2_048,
});

const PORT: Range = Of(Number {
    least: 1,
    most: 65_535,
});

const QUEUE: Range = Of(Number {
    least: 1,
    most: 4_000_000,
});

const WORKERS: Range = Of(Number { least: 1, most: 32 });

const WINDOW: Range = Of(Number { least: 1, most: 50 });

const SECONDS: Range = Of(Number {
    least: 1,
    most: 3_600,
});

const SECONDS_OR_NEVER: Range = Of(Number {
    least: 0,
    most: 3_600,
});

const PARTS: Range = Of(Number {
    least: 1,
    most: 100,
});

const REPLY: Range = Of(Utf8 { most: 160 });

const MARKS: Range = Of(Characters { most: 64 });

const PRINTABLE_8: Range = Of(Printable { most: 8 });

const PRINTABLE_15: Range = Of(Printable { most: 15 });

const PRINTABLE_16: Range = Of(Printable { most: 16 });

const PRINTABLE_32: Range = Of(Printable { most: 32 });

const DIGITS_16: Range = Of(Digits { most: 16 });

const KEYWORD: Range = Of(Word { most: 64 });

static ROWS: [Row; 56] = [
    Row(Every, GROUP, Any, Always),
    Row(Core, b"store-file", FILE_OR_HOST, Free),
    Row(Core, b"smsbox-port", PORT, Free),
    Row(Core, b"sms-outgoing-queue-limit", QUEUE, Free),
    Row(Core, b"sms-incoming-queue-limit", QUEUE, Free),
    Row(Core, b"http-workers", WORKERS, Free),
    Row(Core, b"box-workers", WORKERS, Free),
    Row(Link, PROTOCOL, Protocol, Always),
    Row(Link, b"smsc-id", ID, Free),
    Row(Link, b"host", FILE_OR_HOST, Always),
    Row(Link, b"port", PORT, Always),
    Row(Smpp, b"smsc-username", PRINTABLE_15, Always),
    Row(Smpp, b"smsc-password", PRINTABLE_8, Always),
    Row(Ucp, b"smsc-username", DIGITS_16, Always),
    Row(Ucp, b"smsc-password", PRINTABLE_16, Always),
    Row(Cimd2, b"smsc-username", PRINTABLE_32, Always),
    Row(Cimd2, b"smsc-password", PRINTABLE_32, Always),
    Row(Link, b"system-type", SYSTEM, Free),
    Row(Link, b"denied-smsc-id", Of(List), Free),
    Row(Link, b"allowed-smsc-id", Of(List), Free),
    Row(Link, b"preferred-smsc-id", Of(List), Free),
    Row(Link, b"denied-prefix", Of(List), Free),
    Row(Link, b"allowed-prefix", Of(List), Free),
    Row(Link, b"preferred-prefix", Of(List), Free),
    Row(Link, b"max-pending-submits", WINDOW, Free),
    Row(Link, b"window", WINDOW, Free),
    Row(Link, b"wait-ack", SECONDS, Free),
    Row(Link, b"keepalive", SECONDS_OR_NEVER, Free),
    Row(Link, b"enquire-link-interval", SECONDS_OR_NEVER, Free),
    Row(Link, b"reconnect-delay", SECONDS, Free),
    Row(Smsbox, b"bearerbox-host", FILE_OR_HOST, Free),
    Row(Smsbox, b"sendsms-port", PORT, Free),
    Row(Smsbox, b"sendsms-url", Of(Path), Free),
    Row(Smsbox, b"global-sender", Of(Sender), Free),
    Row(Smsbox, b"reply-couldnotfetch", REPLY, Free),
    Row(Smsbox, b"reply-requestfailed", REPLY, Free),
    Row(Smsbox, b"reply-emptymessage", REPLY, Free),
    Row(User, b"username", NAME, Always),
    Row(User, b"password", NAME, Always),
    Row(User, b"name", NAME, Free),
    Row(User, b"default-smsc", ID, Free),
    Row(User, b"forced-smsc", ID, Free),
    Row(User, b"default-sender", Of(Sender), Free),
    Row(User, b"faked-sender", Of(Sender), Free),
    Row(Service, b"keyword", KEYWORD, Always),
    Row(Service, b"aliases", Of(List), Free),
    Row(Service, b"name", NAME, Free),
    Row(Service, b"text", TEMPLATE, Without(b"get-url")),
    Row(Service, b"get-url", TEMPLATE, Free),
    Row(Service, b"omit-empty", Of(Truth), Free),
    Row(Split, b"max-messages", PARTS, Free),
    Row(Split, b"concatenation", Of(Truth), Free),
    Row(Split, b"split-chars", MARKS, Free),
    Row(Split, b"split-suffix", Text, Free),
    Row(Split, b"header", Text, Free),
    Row(Split, b"footer", Text, Free),
];

/// All variables.
#[tactic(auto, unfolding(crate::specs::Table::rows))]
pub(crate) fn rows() -> &'static [Row]
    ensures { map spec.plain result.now ≡ spec.rows }
{
    &ROWS
}

/// The protocol of a name.
pub(crate) fn protocol_of(value: &[u8]) -> Option<LinkKind>
    ensures { result ≡ spec.protocol_of value.now }
{
    match value {
        b"smpp" => Some(LinkKind::Smpp),
        b"emi" => Some(LinkKind::Ucp),
        b"cimd2" => Some(LinkKind::Cimd2),
        _ => None,
    }
}

/// Whether a variable of this range may hold these octets.
pub(crate) fn is_in(range: Range, value: &[u8]) -> bool
    ensures { result ≡ spec.is_in range value.now }
{
    match range {
        Range::Any => true,
        Range::Of(grammar) => holds(grammar, value),
        Range::Protocol => protocol_of(value).is_some(),
        Range::Text => holds(Grammar::Utf8 { most: usize::MAX }, value),
    }
}
