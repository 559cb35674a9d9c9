//! What stands at the front of octets: a frame, the front of one, or neither.

ghost use Rattle.std.specs.Prelude.{◌≡◌, IfErr};
ghost use Rattle.exact_octets.specs.Reading.{Gives, IsOfOctets};
ghost use Rattle.smpp_wire.specs.Command.{command_of};
ghost use Rattle.smpp_wire.specs.Answers.{IsReadAs, refused as refused_in_specs};
ghost use Rattle.smpp_wire.specs.Reading.{frame_at as frame_front};

use crate::Pdu;
use crate::body::body_at;
use crate::header::header_at;
use crate::row::row_of;
use exact_octets::ReadFault;

/// The code of a command_length that is out of its bounds.
pub const BAD_LENGTH: u32 = 2;
/// The code of a body that is outside its row.
pub const BAD_BODY: u32 = 1;

/// How many octets command_length has.
const LENGTH_LEN: usize = 4;

/// What octets say of the frame at their front.
#[derive(Clone, Copy)]
pub enum Frame<'a> {
    /// A frame of `len` octets stands there.
    Whole { pdu: Pdu<'a>, len: usize },
    /// None stands there yet, and one may come.
    NeedMore,
    /// None can come of them, whatever follows: the first `at` octets begin a frame, and the first `at + 1` don't
    /// (`BAD_BODY`), or command_length is out of its bounds (`BAD_LENGTH`, `at` 0).
    Bad { at: usize, code: u32 },
}

/// The PDU whose frame stands at the front, and what stands behind it.
#[tactic(auto, unfolding(crate::specs::Reading::frame_at))]
fn frame_at(octets: &[u8]) -> Result<(Pdu, &[u8]), ReadFault>
    ensures gives { Gives (λ x. (command_of x.0, x.1.now)) result (frame_front octets.now) }
    ensures no_memory { IfErr result IsOfOctets }
{
    let (header, rest) = header_at(octets)?;
    let (body, rest) = body_at(rest, row_of(header.id), header.body_len)?;
    Ok((
        Pdu {
            id: header.id,
            status: header.status,
            sequence: header.sequence,
            body,
        },
        rest,
    ))
}

/// How octets are refused of which the first `seen` begin a frame, and no more do.
fn refused<'a>(seen: usize) -> Frame<'a>
    ensures { result ≡ refused_in_specs seen }
{
    if seen < LENGTH_LEN {
        Frame::Bad {
            at: 0,
            code: BAD_LENGTH,
        }
    } else {
        Frame::Bad {
            at: seen,
            code: BAD_BODY,
        }
    }
}

/// Reads the frame at the front of octets (docs/FORMATS.md, "Frames of SMPP 3.4"). Octets may follow it. It borrows from them, and takes no memory.
pub fn read_frame(octets: &[u8]) -> Frame
    ensures { IsReadAs octets.now result }
{
    match frame_at(octets) {
        Ok((pdu, rest)) => Frame::Whole {
            pdu,
            len: octets.len() - rest.len(),
        },
        Err(ReadFault::Short) => Frame::NeedMore,
        Err(ReadFault::Malformed { left }) => refused(octets.len() - left),
        Err(ReadFault::Memory) => unreachable!(),
    }
}
