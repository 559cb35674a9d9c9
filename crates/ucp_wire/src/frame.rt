//! What stands at the front of octets: a frame, the front of one, or neither.

ghost use Rattle.std.specs.Prelude.{◌≡◌, ◌≤◌, Ok, length, IfErr};
ghost use Rattle.exact_octets.specs.Reading.{Gives, IsOfOctets};
ghost use Rattle.ucp_wire.specs.Grammar.{command_of};
ghost use Rattle.ucp_wire.specs.Answers.{IsReadAs, is_hex_digit as is_hex_digit_front, refused as refused_front};
ghost use Rattle.ucp_wire.specs.Reading.{closing_at as closing_front, head_at as head_front};

use crate::Pdu;
use crate::head::head_at;
use exact_octets::ReadFault;
use exact_text::{checksum, hex_octet_at, mark_at};

/// The code of a wrong checksum.
pub const BAD_CHECKSUM: u32 = 1;
/// The code of octets of another form.
pub const BAD_FORM: u32 = 2;

/// ETX, which ends a frame.
const ETX: u8 = 3;

/// What octets say of the frame at their front.
#[derive(Clone, Copy)]
pub enum Frame<'a> {
    /// A frame of `len` octets stands there.
    Whole { pdu: Pdu<'a>, len: usize },
    /// None stands there yet, and one may come.
    NeedMore,
    /// None can come of them, whatever follows: the first `at` octets begin a frame, and the first `at + 1` don't (`BAD_FORM`), or
    /// the checksum, whose first digit has `at` octets before it, is another (`BAD_CHECKSUM`).
    Bad { at: usize, code: u32 },
}

/// Whether an octet is a hex digit, its letter in upper case.
fn is_hex_digit(octet: u8) -> bool
    ensures { result ≡ is_hex_digit_front octet }
{
    48 <= octet && octet <= 57 || 65 <= octet && octet <= 70
}

/// The checksum and the ETX behind it.
#[tactic(auto, unfolding(crate::specs::Reading::closing_at))]
fn closing_at(octets: &[u8], sum: u8) -> Result<(((u8, u8), u8), &[u8]), ReadFault>
    ensures gives { Gives (λ x. (x.0, x.1.now)) result (closing_front sum octets.now) }
    ensures no_memory { IfErr result IsOfOctets }
{
    let (digits, rest) = hex_octet_at(octets, sum)?;
    let (etx, rest) = mark_at(rest, ETX)?;
    Ok(((digits, etx), rest))
}

/// How octets are refused that cease to begin a frame at `octet`, before which `seen` stand, and before whose checksum `at`.
fn refused<'a>(at: usize, seen: usize, octet: u8) -> Frame<'a>
    requires { at ≤ seen }
    ensures { result ≡ refused_front at seen octet }
{
    if seen - at < 2 && is_hex_digit(octet) {
        Frame::Bad {
            at,
            code: BAD_CHECKSUM,
        }
    } else {
        Frame::Bad {
            at: seen,
            code: BAD_FORM,
        }
    }
}

/// What octets say that begin with what stands before a checksum, behind which `rest` stands.
fn closed<'a>(octets: &'a [u8], pdu: Pdu<'a>, rest: &[u8]) -> Frame<'a>
    requires { head_front octets.now ≡ Ok (command_of pdu, rest.now) }
    ensures { IsReadAs octets.now result }
{
    let at = octets.len() - rest.len();
    let sum = checksum(&octets[1..at]);
    match closing_at(rest, sum) {
        Ok((_, behind)) => Frame::Whole {
            pdu,
            len: octets.len() - behind.len(),
        },
        Err(ReadFault::Short) => Frame::NeedMore,
        Err(ReadFault::Malformed { left }) => {
            let seen = octets.len() - left;
            refused(at, seen, octets[seen])
        }
        Err(ReadFault::Memory) => unreachable!(),
    }
}

/// Reads the frame at the front of octets (docs/FORMATS.md, "Frames of UCP"). Octets may follow it. It borrows from them, and takes
/// no memory.
pub fn read_frame(octets: &[u8]) -> Frame
    ensures { IsReadAs octets.now result }
{
    match head_at(octets) {
        Ok((pdu, rest)) => closed(octets, pdu, rest),
        Err(ReadFault::Short) => Frame::NeedMore,
        Err(ReadFault::Malformed { left }) => Frame::Bad {
            at: octets.len() - left,
            code: BAD_FORM,
        },
        Err(ReadFault::Memory) => unreachable!(),
    }
}
