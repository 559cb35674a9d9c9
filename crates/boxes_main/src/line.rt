//! A line on standard error, before it is put together.

ghost use Rattle.std.specs.Prelude.{◌≡◌, ◌++◌, ◌∷◌, []};
ghost use Rattle.boxes_main.specs.Giving.{GivesText};
ghost use Rattle.boxes_main.specs.Line.{area_word, text_in};

use crate::giving::{Cut, give, give_two};
use itoa::Buffer;
use kn_base::{Octets, Sink};
use store_disk::Area;

/// The line for standard error.
#[derive(Clone, Copy)]
pub enum Line<'a> {
    /// These words, with LF.
    Text(&'static [u8]),
    /// A line of a file of the configuration.
    Place { file: u32, line: u64 },
    /// A variable that a group lacks.
    Lack { group: u64, variable: &'a Octets },
    /// The first place of a store that doesn't fit.
    Misfit { area: Area, at: u64 },
    /// These words, and a number.
    Counted { words: &'static [u8], number: u64 },
}

/// The line for want of memory.
pub(crate) const OUT_OF_MEMORY: &[u8] = b"boxes: out of memory\n";

/// The line for a disk that failed.
pub(crate) const DISK_FAULT: &[u8] = b"boxes: store: disk fault\n";

/// The line for a connection, or standard input or output, that failed.
pub(crate) const CONNECTION_FAULT: &[u8] = b"boxes: connection fault\n";

/// Gives a line in four parts.
fn give_parts<S: Sink>(
    errors: &mut S,
    front: &[u8],
    first: &[u8],
    between: &[u8],
    last: &[u8],
) -> Result<(), Cut>
    ensures { GivesText (front.now ++ first.now ++ between.now ++ last.now ++ 10 ∷ []) result (S.course errors.old) (S.course errors.new) }
{
    give_two(errors, front, first)?;
    give_two(errors, between, last)?;
    give(errors, b"\n")
}

/// The word for an area of a store.
fn word_of(area: Area) -> &'static [u8]
    ensures { result.now ≡ area_word area }
{
    match area {
        Area::A => b"a",
        Area::B => b"b",
        Area::Pick => b"pick",
    }
}

/// Gives a line.
pub(crate) fn give_line<S: Sink>(errors: &mut S, line: Line) -> Result<(), Cut>
    ensures { GivesText (text_in line.entry) result (S.course errors.old) (S.course errors.new) }
{
    match line {
        Line::Text(text) => give(errors, text),
        Line::Place { file, line } => {
            let (mut files, mut lines) = (Buffer::new(), Buffer::new());
            give_parts(
                errors,
                b"boxes: configuration: file ",
                files.format(file).as_bytes(),
                b" line ",
                lines.format(line).as_bytes(),
            )
        }
        Line::Lack { group, variable } => {
            let mut groups = Buffer::new();
            give_parts(
                errors,
                b"boxes: configuration: group ",
                groups.format(group).as_bytes(),
                b" lacks ",
                variable.as_slice(),
            )
        }
        Line::Misfit { area, at } => {
            let mut places = Buffer::new();
            give_parts(
                errors,
                b"boxes: store: area ",
                word_of(area),
                b" at ",
                places.format(at).as_bytes(),
            )
        }
        Line::Counted { words, number } => {
            let mut numbers = Buffer::new();
            give_parts(errors, words, numbers.format(number).as_bytes(), b"", b"")
        }
    }
}
