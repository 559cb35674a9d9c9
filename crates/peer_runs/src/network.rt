//! A network whose answers stand beforehand, and which notes what it is asked for.

ghost use Rattle.std.specs.Prelude.{◌≤◌};

use kn_base::Octets;
use line_cases::{cut_at, number};
use std::cell::Cell;
use std::fmt::Write as Noting;
use std::io::{ErrorKind, Read, Write};
use std::net::{IpAddr, Ipv4Addr, Net, OpenListener, OpenStream, SocketAddr};
use std::os::fd::{AsRawFd, RawFd};
use std::rc::Rc;
use std::time::Duration;
use std::{fmt, io};

/// How many octets are noted.
const ROOM: usize = 480;

/// The first octets that were noted.
#[derive(Clone, Copy)]
pub struct Notes {
    octets: [u8; ROOM],
    len: usize,
    ghost within: { len ≤ 480 },
}

impl Notes {
    /// Nothing was noted yet.
    fn new() -> Notes {
        Notes {
            octets: [0; ROOM],
            len: 0,
        }
    }

    /// What was noted.
    pub fn octets(&self) -> &[u8] {
        &self.octets[..self.len]
    }

    fn push(&mut self, octet: u8) {
        if self.len < ROOM {
            self.octets[self.len] = octet;
            self.len += 1;
        }
    }
}

impl fmt::Write for Notes {
    fn write_str(&mut self, text: &str) -> fmt::Result {
        for octet in text.as_bytes() {
            self.push(*octet);
        }
        Ok(())
    }
}

/// The answers of a network and its streams, a word each, and what was asked for.
#[derive(Drop)]
pub struct Plan {
    script: Octets,
    at: Cell<usize>,
    pub notes: Cell<Notes>,
}

/// The words that are errors. All others are answers.
static ERRORS: [(&str, ErrorKind); 6] = [
    ("block", ErrorKind::WouldBlock),
    ("late", ErrorKind::TimedOut),
    ("signal", ErrorKind::Interrupted),
    ("refused", ErrorKind::ConnectionRefused),
    ("reset", ErrorKind::ConnectionReset),
    ("", ErrorKind::Other),
];

impl Plan {
    /// Answers that stand between blanks. Behind the last one all fails.
    pub fn new(script: Octets) -> Plan {
        Plan {
            script,
            at: Cell::new(0),
            notes: Cell::new(Notes::new()),
        }
    }

    /// The next answer.
    fn answer(&self) -> io::Result<&[u8]> {
        let text = self.script.as_slice();
        let (word, behind) = cut_at(&text[self.at.get().min(text.len())..], b' ');
        self.at.set(text.len().saturating_sub(behind.len()));
        for (name, kind) in &ERRORS {
            if word == name.as_bytes() {
                return Err(io::Error::from(*kind));
            }
        }
        Ok(word)
    }

    /// Notes a call and its number.
    fn note(&self, call: &str, number: u64) {
        let mut notes = self.notes.get();
        let _ = write!(notes, " {call} {number}");
        self.notes.set(notes);
    }
}

/// The seconds of a limit, and 0 where there is none.
fn seconds(limit: Option<Duration>) -> u64 {
    match limit {
        Some(limit) => limit.as_secs(),
        None => 0,
    }
}

/// A stream whose calls are answered by a plan: a read by the octets of a word or by `end`, a write by how many octets go out.
#[derive(Drop)]
pub struct PlannedStream {
    plan: Rc<Plan>,
}

impl Read for PlannedStream {
    fn read(&mut self, buf: &mut [u8]) -> io::Result<usize> {
        self.plan.note("read", buf.len() as u64);
        let word = self.plan.answer()?;
        if word == b"end".as_slice() {
            return Ok(0);
        }
        let count = word.len().min(buf.len());
        buf[..count].copy_from_slice(&word[..count]);
        Ok(count)
    }
}

impl Write for PlannedStream {
    fn write(&mut self, buf: &[u8]) -> io::Result<usize> {
        self.plan.note("write", buf.len() as u64);
        let word = self.plan.answer()?;
        Ok(buf.len().min(number(word) as usize))
    }

    fn flush(&mut self) -> io::Result<()> {
        Ok(())
    }
}

impl AsRawFd for PlannedStream {
    fn as_raw_fd(&self) -> RawFd {
        -1
    }
}

impl OpenStream for PlannedStream {
    fn set_nodelay(&self, nodelay: bool) -> io::Result<()> {
        self.plan.note("nodelay", u64::from(nodelay));
        self.plan.answer()?;
        Ok(())
    }

    fn set_read_timeout(&self, dur: Option<Duration>) -> io::Result<()> {
        self.plan.note("read-limit", seconds(dur));
        self.plan.answer()?;
        Ok(())
    }

    fn set_write_timeout(&self, dur: Option<Duration>) -> io::Result<()> {
        self.plan.note("write-limit", seconds(dur));
        self.plan.answer()?;
        Ok(())
    }
}

/// There is no listener.
#[derive(Drop)]
pub struct NoListener;

impl AsRawFd for NoListener {
    fn as_raw_fd(&self) -> RawFd {
        -1
    }
}

impl OpenListener for NoListener {
    type Stream = PlannedStream;

    fn accept(&self) -> io::Result<(PlannedStream, SocketAddr)> {
        Err(io::Error::from(ErrorKind::Unsupported))
    }
}

/// A network over a plan: a lookup is answered by how many addresses there are, from 10.0.0.1 on, and a call that connects by any word.
#[derive(Drop)]
pub struct PlannedNet {
    pub plan: Rc<Plan>,
}

impl Net for PlannedNet {
    type Stream = PlannedStream;

    type Listener = NoListener;

    fn bind(&self, _addr: SocketAddr) -> io::Result<NoListener> {
        Err(io::Error::from(ErrorKind::Unsupported))
    }

    fn connect(&self, _addr: SocketAddr) -> io::Result<PlannedStream> {
        Err(io::Error::from(ErrorKind::Unsupported))
    }

    fn connect_timeout(&self, addr: SocketAddr, timeout: Duration) -> io::Result<PlannedStream> {
        let mut notes = self.plan.notes.get();
        let _ = write!(notes, " connect {addr} within {}", timeout.as_secs());
        self.plan.notes.set(notes);
        self.plan.answer()?;
        match self.plan.clone() {
            Ok(plan) => Ok(PlannedStream { plan }),
            Err(_) => Err(io::Error::from(ErrorKind::Other)),
        }
    }

    fn lookup_host(&self, host: &str, port: u16, found: &mut [SocketAddr]) -> io::Result<usize> {
        let mut notes = self.plan.notes.get();
        let _ = write!(notes, " lookup {host} {port}");
        self.plan.notes.set(notes);
        let word = self.plan.answer()?;
        let count = found.len().min(number(word).min(9) as usize);
        for at in 0..count {
            let ip = Ipv4Addr::new(10, 0, 0, 1 + at as u8);
            found[at] = SocketAddr::new(IpAddr::V4(ip), port);
        }
        Ok(count)
    }
}
