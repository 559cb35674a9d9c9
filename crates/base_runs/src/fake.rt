//! A runtime whose reads, writes and times stand beforehand, and which keeps what went through it.

ghost use Rattle.std.specs.Prelude.{◌≤◌};

use kn_base::read_decimal;
use line_cases::cut_at;
use std::alloc::Allocator;
use std::cell::Cell;
use std::fmt::{Display, Write};
use std::io::{BufRead, ErrorKind, Input, Lines, Print, Read};
use std::rt::Clock;
use std::time::Duration;
use std::{fmt, io};

/// How many octets a wire keeps.
const ROOM: usize = 32;

/// The first octets that went through.
#[derive(Clone, Copy)]
pub struct Wire {
    octets: [u8; ROOM],
    len: usize,
    ghost within: { len ≤ 32 },
}

impl Wire {
    /// A wire through which nothing went.
    pub fn new() -> Wire {
        Wire {
            octets: [0; ROOM],
            len: 0,
        }
    }

    /// What went through.
    pub fn octets(&self) -> &[u8] {
        &self.octets[..self.len]
    }

    /// One octet goes through.
    fn push(&mut self, octet: u8) {
        if self.len < ROOM {
            self.octets[self.len] = octet;
            self.len += 1;
        }
    }
}

impl fmt::Write for Wire {
    fn write_str(&mut self, text: &str) -> fmt::Result {
        for octet in text.as_bytes() {
            self.push(*octet);
        }
        Ok(())
    }
}

/// A runtime over words between blanks, in which `!` is a fault. A read gives a word. A write takes at most as many octets as
/// a word says. A reading of the clock gives the seconds since 1970 that a word says. Behind the words the input ends, and
/// all else fails.
#[derive(Drop)]
pub struct Fake<'a> {
    /// The words that reads give.
    reads: &'a [u8],
    /// The words that writes and readings use up.
    script: Cell<&'a [u8]>,
    /// How many seconds it rested.
    pub rested: Cell<u64>,
    /// What went through.
    pub wire: Cell<Wire>,
}

impl<'a> Fake<'a> {
    /// A runtime of which nothing was asked yet.
    pub fn new(script: &'a [u8]) -> Fake<'a> {
        Fake {
            reads: script,
            script: Cell::new(script),
            rested: Cell::new(0),
            wire: Cell::new(Wire::new()),
        }
    }

    /// The number of the next word, where it is no fault.
    fn next_number(&self) -> Option<u64> {
        let (word, behind) = cut_at(self.script.get(), b' ');
        self.script.set(behind);
        read_decimal(word, u64::MAX)
    }
}

/// The error of each fault.
fn fault() -> io::Error {
    io::Error::from(ErrorKind::Other)
}

impl<'a> Print for Fake<'a> {
    fn print<D: Display + Drop>(&self, _value: D) -> io::Result<()> {
        Err(fault())
    }

    fn println<D: Display + Drop>(&self, _value: D) -> io::Result<()> {
        Err(fault())
    }

    fn write_all(&self, _bytes: &[u8]) -> io::Result<()> {
        Err(fault())
    }

    fn write_some(&self, bytes: &[u8]) -> io::Result<usize> {
        let Some(most) = self.next_number() else {
            return Err(fault());
        };
        let mut wire = self.wire.get();
        let count = bytes.len().min(most as usize);
        for octet in &bytes[..count] {
            wire.push(*octet);
        }
        self.wire.set(wire);
        Ok(count)
    }
}

impl<'a> Eprint for Fake<'a> {
    fn eprint<D: Display + Drop>(&self, value: D) -> io::Result<()> {
        if self.next_number().is_none() {
            return Err(fault());
        }
        let mut wire = self.wire.get();
        let written = write!(wire, "{value}");
        self.wire.set(wire);
        written.map_err(|_| fault())
    }

    fn eprintln<D: Display + Drop>(&self, _value: D) -> io::Result<()> {
        Err(fault())
    }
}

impl<'a> Clock for Fake<'a> {
    fn monotonic(&self) -> io::Result<Duration> {
        Err(fault())
    }

    fn since_1970(&self) -> io::Result<Duration> {
        match self.next_number() {
            Some(seconds) => Ok(Duration::from_secs(seconds)),
            None => Err(fault()),
        }
    }

    fn sleep(&self, duration: Duration) {
        self.rested.set(duration.as_secs());
    }
}

/// The reads of a `Fake` that are left.
#[derive(Drop)]
pub struct FakeReader<'a> {
    rest: &'a [u8],
}

impl<'a> Read for FakeReader<'a> {
    fn read(&mut self, buf: &mut [u8]) -> io::Result<usize> {
        let (word, behind) = cut_at(self.rest, b' ');
        self.rest = behind;
        if word == b"!".as_slice() {
            return Err(fault());
        }
        let count = word.len().min(buf.len());
        buf[..count].copy_from_slice(&word[..count]);
        Ok(count)
    }
}

impl<'a> BufRead for FakeReader<'a> {
    fn fill_buf(&mut self) -> io::Result<&[u8]> {
        Err(fault())
    }

    fn consume(&mut self, _amount: usize) {}
}

impl<'a> Input for Fake<'a> {
    type Reader = FakeReader<'a>;

    fn read_line<A: Allocator + Clone>(&self, _buf: &mut String<A>) -> io::Result<usize> {
        Err(fault())
    }

    fn lines<A: Allocator>(&self, alloc: A) -> Lines<FakeReader<'a>, A> {
        self.reader().lines(alloc)
    }

    fn reader(&self) -> FakeReader<'a> {
        FakeReader { rest: self.reads }
    }
}
