//! What a store counts, as lines of text.

ghost use Rattle.std.specs.Prelude.{◌≡◌, ◌≤◌, ◌+◌, ◌++◌, length};
ghost use Rattle.arrayvec.specs.ArrayVec.{array_vec_len};
ghost use Rattle.boxes_main.specs.Line.{text_in};
ghost use Rattle.boxes_main.specs.Show as spec;

use crate::failure::Fault;
use crate::line::{CONNECTION_FAULT, Line, OUT_OF_MEMORY};
use arrayvec::ArrayVec;
use gate_model::Totals;
use itoa::Buffer;
use kn_base::{Sink, Wrote, write_all};

/// The most octets of a line: a name, a space, a number and LF.
const ROW_LIMIT: usize = 64;

/// No text of all lines has more octets.
const TEXT_LIMIT: usize = 12 * ROW_LIMIT;

/// Why an output took not all that was printed.
#[derive(Clone, Copy)]
pub enum OutputFault {
    /// It failed: its count of faults rose.
    Failed,
    /// It found no memory: its count of that rose.
    Memory,
}

impl Fault for OutputFault {
    ghost says = { spec.output_row };

    fn row(&self) -> (u8, Line) {
        match self {
            OutputFault::Failed => (6, Line::Text(CONNECTION_FAULT)),
            OutputFault::Memory => (9, Line::Text(OUT_OF_MEMORY)),
        }
    }
}

/// Prints what a store counts, without taking memory.
pub(crate) fn print_totals<S: Sink>(output: &mut S, totals: Totals) -> Option<OutputFault>
    ensures { spec.Prints (spec.show_text totals) result (S.course output.old) (S.course output.new) }
{
    let starved = output.starved();
    match write_all(output, text_of(totals).as_slice()) {
        Wrote::All => None,
        Wrote::Failed { .. } if starved < output.starved() || starved == u64::MAX => {
            Some(OutputFault::Memory)
        }
        Wrote::Failed { .. } => Some(OutputFault::Failed),
    }
}

/// The lines of all counts.
fn text_of(totals: Totals) -> ArrayVec<u8, TEXT_LIMIT>
    ensures { result.items ≡ spec.show_text totals }
{
    let mut text = ArrayVec::new();
    put_row(&mut text, b"accepted", totals.accepted);
    put_row(&mut text, b"acked", totals.acked);
    put_row(&mut text, b"rejected", totals.rejected);
    put_row(&mut text, b"waiting", totals.waiting);
    put_row(&mut text, b"awaited", totals.awaited);
    put_row(&mut text, b"unmatched", totals.unmatched);
    put_row(&mut text, b"jobs", totals.jobs);
    put_row(&mut text, b"called", totals.called);
    put_row(&mut text, b"dropped", totals.dropped);
    put_row(&mut text, b"arrived", totals.arrived);
    put_row(&mut text, b"arrivals", totals.arrivals);
    put_row(&mut text, b"entries", totals.entries);
    text
}

/// Puts the line of a count last.
fn put_row(text: &mut ArrayVec<u8, TEXT_LIMIT>, name: &[u8], count: u64)
    requires room { array_vec_len text.old + ROW_LIMIT ≤ TEXT_LIMIT }
    requires short { length name.now ≤ 16 }
    ensures items { text.new.items ≡ text.old.items ++ spec.row name.now count }
    ensures len { array_vec_len text.new ≤ array_vec_len text.old + ROW_LIMIT }
{
    let mut digits = Buffer::new();
    put(text, name);
    put(text, b" ");
    put(text, digits.format(count).as_bytes());
    put(text, b"\n");
}

/// Puts octets last, for which there is room.
fn put(text: &mut ArrayVec<u8, TEXT_LIMIT>, octets: &[u8])
    requires { array_vec_len text.old + length octets.now ≤ TEXT_LIMIT }
    ensures items { text.new.items ≡ text.old.items ++ octets.now }
    ensures len { array_vec_len text.new ≡ array_vec_len text.old + length octets.now }
{
    let _ = text.try_extend_from_slice(octets);
}
