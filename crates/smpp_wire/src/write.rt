//! Writing frames.

ghost use Rattle.std.specs.Prelude.{◌≡◌, ◌++◌, OnOk, OnErr};
ghost use Rattle.exact_octets.specs.Growth.{Keeps};
ghost use Rattle.exact_octets.specs.Numbers.{number};
ghost use Rattle.smpp_wire.specs.Command.{command_of};
ghost use Rattle.smpp_wire.specs.Grammar.{IsCommand, frame_length, frame};

use crate::Pdu;
use crate::body::{body_len, put_body};
use crate::limits::HEADER_LEN;
use kn_base::{Memory, Octets};

/// Puts the header of a frame of `len` octets last, or a front of it.
fn put_header(into: &mut Octets, len: u32, pdu: &Pdu) -> Result<(), Memory>
    ensures ok { OnOk result (into.new ≡ into.old ++ (number 4 len ++ (number 4 pdu.now.id ++ (number 4 pdu.now.status ++ number 4 pdu.now.sequence)))) }
    ensures err { OnErr result (Keeps into.old into.new) }
{
    into.extend_from_slice(&len.to_be_bytes())?;
    into.extend_from_slice(&pdu.id.to_be_bytes())?;
    into.extend_from_slice(&pdu.status.to_be_bytes())?;
    into.extend_from_slice(&pdu.sequence.to_be_bytes())
}

/// How many octets the frame of a PDU has.
fn frame_len(pdu: &Pdu) -> u32
    requires { IsCommand (command_of pdu.now) }
    ensures { result ≡ frame_length (command_of pdu.now) }
{
    HEADER_LEN as u32 + body_len(pdu.id, &pdu.body) as u32
}

/// Puts a frame last, or a front of it.
fn put_pdu(into: &mut Octets, pdu: &Pdu) -> Result<(), Memory>
    requires { IsCommand (command_of pdu.now) }
    ensures ok { OnOk result (into.new ≡ into.old ++ frame (command_of pdu.now)) }
    ensures err { OnErr result (Keeps into.old into.new) }
{
    put_header(into, frame_len(pdu), pdu)?;
    put_body(into, pdu.id, &pdu.body)
}

/// Puts the frame of a PDU last (docs/FORMATS.md, "Frames of SMPP 3.4"). After `Memory` nothing has changed.
pub fn write_pdu(into: &mut Octets, pdu: &Pdu) -> Result<(), Memory>
    requires { IsCommand (command_of pdu.now) }
    ensures ok { OnOk result (into.new ≡ into.old ++ frame (command_of pdu.now)) }
    ensures err { OnErr result (into.new ≡ into.old) }
{
    let len = into.len();
    let put = put_pdu(into, pdu);
    if put.is_err() {
        into.truncate(len);
    }
    put
}
