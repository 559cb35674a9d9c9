//! A case: what it changes of the worked request.

use kn_base::read_decimal;
use line_cases::{cut_at, cut_item, number};

/// The configuration of the worked request.
pub const BASE: &[u8] = b"group = core
store-file = gate.store

group = smsc
smsc = smpp
smsc-id = main
host = 127.0.0.1
port = 2775
smsc-username = gate
smsc-password = secret

group = smsbox
bearerbox-host = localhost

group = sendsms-user
username = tester
password = foobar
";

/// The name of its store.
pub const STORE_FILE: &[u8] = b"gate.store";

/// The worked request, with escapes.
const HELLO: &[u8] =
    b"GET /cgi-bin/sendsms?username=tester&password=foobar&from=123&to=0123456&text=hello HTTP/1.0\\r\\n\\r\\n";

/// Which runs a case stands for.
#[derive(Clone, Copy)]
pub enum Runs {
    /// So many, each over the disk that the one before left.
    Plain,
    /// One run for each call of the visitor, which fails, until none does.
    EachVisitorCall,
    /// One run for each call of standard output, which fails, until none does.
    EachOutputCall,
    /// One run for each call of the disk, which fails, until none does.
    EachDiskCall,
    /// One run, and of its disk, stopped in each of its calls, what `show` counts.
    EachStop,
}

/// What a case sets up.
#[derive(Clone, Copy)]
pub struct Case<'a> {
    /// `words A B ..`: the words of the program.
    pub words: &'a [u8],
    /// `file TEXT`: the text of gate.conf, with escapes. `no file`: there is none.
    pub file: Option<&'a [u8]>,
    /// `core TEXT`: lines in front of that text, whose first group is that of core.
    pub core: &'a [u8],
    /// `also NAME TEXT`: a further file.
    pub also: &'a [u8],
    /// `shelf fails`: the first call of the shelf fails.
    pub shelf_fails: bool,
    /// `take TEXT`: what the visitor says, with escapes.
    pub request: &'a [u8],
    /// `in pieces of N`: the octets of each of its takes.
    pub size: u64,
    /// `flood N`: it says that again and again, N octets in all.
    pub flood: Option<u64>,
    /// `quiet`: behind it, nothing comes in time.
    pub quiet: bool,
    /// `output fails`: the first call of standard output fails.
    pub output_fails: bool,
    /// `a HEX`, `b HEX`, `pick HEX`: what the disk's areas hold.
    pub a: &'a [u8],
    pub b: &'a [u8],
    pub pick: &'a [u8],
    /// `failing N M ..`: the numbers of the disk's calls that fail.
    pub failing: &'a [u8],
    /// `shown`: what the areas hold in the end is written too.
    pub shown: bool,
    /// `each visitor call fails`, `each output call fails`, `each disk call fails`, `each stop shows`.
    pub runs: Runs,
    /// `again`, `times N`: how many runs there are.
    pub times: u64,
    /// `then show`: one more run, of `show`.
    pub then_show: bool,
}

/// The worked request.
const WORKED: Case<'static> = Case {
    words: b"door gate.conf",
    file: Some(BASE),
    core: b"",
    also: b"",
    shelf_fails: false,
    request: HELLO,
    size: 100_000,
    flood: None,
    quiet: false,
    output_fails: false,
    a: b"",
    b: b"",
    pick: b"",
    failing: b"",
    shown: false,
    runs: Runs::Plain,
    times: 1,
    then_show: false,
};

/// Adds an item that is about the words and the files.
fn add_item<'a>(case: &mut Case<'a>, item: &'a [u8]) {
    let (name, value) = cut_at(item, b' ');
    match name {
        b"words" => case.words = value,
        b"file" => case.file = Some(value),
        b"no" => case.file = None,
        b"core" => case.core = value,
        b"also" => case.also = value,
        b"shelf" => case.shelf_fails = true,
        _ => add_peer_item(case, name, value),
    }
}

/// Adds an item that is about the visitor and standard output.
fn add_peer_item<'a>(case: &mut Case<'a>, name: &[u8], value: &'a [u8]) {
    match name {
        b"take" => case.request = value,
        b"in" => case.size = last_number(value),
        b"flood" => case.flood = Some(number(value)),
        b"quiet" => case.quiet = true,
        b"output" => case.output_fails = true,
        _ => add_disk_item(case, name, value),
    }
}

/// Adds an item that is about the disk and the runs.
fn add_disk_item<'a>(case: &mut Case<'a>, name: &[u8], value: &'a [u8]) {
    match name {
        b"a" => case.a = value,
        b"b" => case.b = value,
        b"pick" => case.pick = value,
        b"failing" => case.failing = value,
        b"shown" => case.shown = true,
        b"each" => case.runs = runs_of(value),
        b"again" => case.times = 2,
        b"times" => case.times = number(value),
        b"then" => case.then_show = true,
        _ => {}
    }
}

/// The number behind `pieces of`.
fn last_number(text: &[u8]) -> u64 {
    let (_, text) = cut_at(text, b' ');
    let (_, text) = cut_at(text, b' ');
    read_decimal(text, 100_000).unwrap_or(1)
}

/// Which calls fail in turn, or that the disk is stopped in each.
fn runs_of(text: &[u8]) -> Runs {
    match text {
        b"disk call fails" => Runs::EachDiskCall,
        b"output call fails" => Runs::EachOutputCall,
        b"stop shows" => Runs::EachStop,
        _ => Runs::EachVisitorCall,
    }
}

/// The case of a line.
pub fn read_case(line: &[u8]) -> Case {
    let mut case = WORKED;
    let mut rest = line;
    for _ in 0..line.len() {
        if rest.is_empty() {
            break;
        }
        let (item, behind) = cut_item(rest);
        rest = behind;
        add_item(&mut case, item);
    }
    case
}
