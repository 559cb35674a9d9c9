//! A case: the messages that wait, the link, and what its centre says.

use line_cases::{cut_at, cut_item, number};

/// How often `link` is run in a case.
#[derive(Clone, Copy)]
pub enum Runs {
    Once,
    /// `each disk call`: once for each call of its disk, which fails, and once where none does.
    EachDiskCall,
    /// `each peer call`: the same for each call of what comes, by `hears`.
    EachPeerCall,
    /// `each stop`: once, and then `show` is run over what a stop in each call of its disk leaves.
    EachStop,
}

/// What a case sets up.
#[derive(Clone, Copy)]
pub struct Case<'a> {
    /// `asks QUERY ..`: what `door` is asked for first, behind the user's name and password.
    pub asks: &'a [u8],
    /// `words A B ..`: the words of the program.
    pub words: &'a [u8],
    /// `smsc TEXT`: further lines in the group of the link, with escapes.
    pub smsc: &'a [u8],
    /// `kind NAME`: what it speaks.
    pub kind: &'a [u8],
    /// `clock N ..`: the readings of the session's clock.
    pub clock: &'a [u8],
    /// `login N`: the status of the centre's answer to the login.
    pub login: &'a [u8],
    /// `replies WORD ..`: what it answers to messages, `good:ID`, `refuse:STATUS`, `silent`.
    pub replies: &'a [u8],
    /// `hears HEX ..`: octets that come, in the place of a centre, each in a take of its own; `-` is a take in which nothing comes.
    pub hears: Option<&'a [u8]>,
    /// `quiets N`: behind them, so often nothing comes in time.
    pub quiets: u64,
    /// `no peer`: the dialer has none. `dial fails`: it fails.
    pub no_peer: bool,
    pub dial_fails: bool,
    pub runs: Runs,
}

/// A link of SMPP with a centre that takes all.
const PLAIN: Case<'static> = Case {
    asks: b"",
    words: b"link gate.conf main",
    smsc: b"",
    kind: b"smpp",
    clock: b"1000",
    login: b"0",
    replies: b"",
    hears: None,
    quiets: 0,
    no_peer: false,
    dial_fails: false,
    runs: Runs::Once,
};

/// What is behind `each`.
fn runs_of(text: &[u8]) -> Runs {
    match text {
        b"disk call" => Runs::EachDiskCall,
        b"peer call" => Runs::EachPeerCall,
        b"stop" => Runs::EachStop,
        _ => Runs::Once,
    }
}

/// Adds an item.
fn add_item<'a>(case: &mut Case<'a>, item: &'a [u8]) {
    let (name, value) = cut_at(item, b' ');
    match name {
        b"asks" => case.asks = value,
        b"words" => case.words = value,
        b"smsc" => case.smsc = value,
        b"kind" => case.kind = value,
        b"clock" => case.clock = value,
        b"each" => case.runs = runs_of(value),
        _ => add_peer_item(case, name, value),
    }
}

/// Adds an item that is about the centre.
fn add_peer_item<'a>(case: &mut Case<'a>, name: &[u8], value: &'a [u8]) {
    match name {
        b"login" => case.login = value,
        b"replies" => case.replies = value,
        b"hears" => case.hears = Some(value),
        b"quiets" => case.quiets = number(value).min(10_000),
        b"no" => case.no_peer = true,
        b"dial" => case.dial_fails = true,
        _ => {}
    }
}

/// The case of a line.
pub fn read_case(line: &[u8]) -> Case {
    let mut case = PLAIN;
    let mut rest = line;
    for _ in 0..line.len() {
        if rest.is_empty() {
            break;
        }
        let (item, behind) = cut_item(rest);
        rest = behind;
        add_item(&mut case, item);
    }
    case
}
