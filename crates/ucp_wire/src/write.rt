//! Writing frames.

ghost use Rattle.std.specs.Prelude.{◌≡◌, ◌++◌, ◌∷◌, [], length, take, drop, OnOk, OnErr};
ghost use Rattle.exact_octets.specs.Growth.{Keeps};
ghost use Rattle.exact_text.specs.Text.{decimal, checksum as checksum_front};
ghost use Rattle.ucp_wire.specs.Grammar.{IsCommand, command_of, kind_code, ended, begin, behind_length, summed, head, frame};

use crate::Pdu;
use crate::head::{FRAME_LEN, SLASH};
use exact_text::{checksum, put_decimal, put_hex_octet};
use kn_base::{Memory, Octets};

/// Puts a number last in so many digits, with the slash behind it.
fn put_number(into: &mut Octets, width: usize, number: u64) -> Result<(), Memory>
    ensures ok { OnOk result (into.new ≡ into.old ++ ended (decimal width number)) }
    ensures err { OnErr result (Keeps into.old into.new) }
{
    put_decimal(into, width, number)?;
    into.push(SLASH)
}

/// Puts a text last, with the slash behind it.
fn put_text(into: &mut Octets, text: &[u8]) -> Result<(), Memory>
    ensures ok { OnOk result (into.new ≡ into.old ++ ended text.now) }
    ensures err { OnErr result (Keeps into.old into.new) }
{
    into.extend_from_slice(text)?;
    into.push(SLASH)
}

/// Puts the letter of an operation or a result last, with the slash behind it.
fn put_kind(into: &mut Octets, result_: bool) -> Result<(), Memory>
    ensures ok { OnOk result (into.new ≡ into.old ++ ended (kind_code result_ ∷ [])) }
    ensures err { OnErr result (Keeps into.old into.new) }
{
    into.push(if result_ { 82 } else { 79 })?;
    into.push(SLASH)
}

/// Puts STX, TRN and LEN last.
fn put_begin(into: &mut Octets, pdu: &Pdu) -> Result<(), Memory>
    requires { IsCommand (command_of pdu.now) }
    ensures ok { OnOk result (into.new ≡ into.old ++ begin (command_of pdu.now)) }
    ensures err { OnErr result (Keeps into.old into.new) }
{
    into.push(2)?;
    put_number(into, 2, u64::from(pdu.trn))?;
    put_number(into, 5, FRAME_LEN + pdu.fields.len() as u64)
}

/// Puts what stands between LEN and the checksum last.
fn put_rest(into: &mut Octets, pdu: &Pdu) -> Result<(), Memory>
    ensures ok { OnOk result (into.new ≡ into.old ++ behind_length (command_of pdu.now)) }
    ensures err { OnErr result (Keeps into.old into.new) }
{
    put_kind(into, pdu.result)?;
    put_number(into, 2, u64::from(pdu.operation))?;
    put_text(into, pdu.fields)
}

/// Puts what stands before the checksum last, or a front of it.
fn put_head(into: &mut Octets, pdu: &Pdu) -> Result<(), Memory>
    requires { IsCommand (command_of pdu.now) }
    ensures ok { OnOk result (into.new ≡ into.old ++ head (command_of pdu.now)) }
    ensures err { OnErr result (Keeps into.old into.new) }
{
    put_begin(into, pdu)?;
    put_rest(into, pdu)
}

/// The sum of a head that was put behind so many octets.
fn sum_behind(into: &Octets, len: usize, pdu: &Pdu) -> u8
    requires is_head { drop len into.now ≡ head (command_of pdu.now) }
    ensures { result ≡ checksum_front (summed (command_of pdu.now)) }
{
    let _head = pdu;
    let head = &into.as_slice()[len..];
    checksum(&head[1..])
}

/// Puts a frame last, or a front of it.
fn put_pdu(into: &mut Octets, pdu: &Pdu) -> Result<(), Memory>
    requires { IsCommand (command_of pdu.now) }
    ensures ok { OnOk result (into.new ≡ into.old ++ frame (command_of pdu.now)) }
    ensures err { OnErr result (Keeps into.old into.new) }
{
    let len = into.len();
    put_head(into, pdu)?;
    let sum = sum_behind(into, len, pdu);
    put_hex_octet(into, sum)?;
    into.push(3)
}

/// Puts the frame of a PDU last (docs/FORMATS.md, "Frames of UCP"). After `Memory` nothing has changed.
pub fn write_pdu(into: &mut Octets, pdu: &Pdu) -> Result<(), Memory>
    requires { IsCommand (command_of pdu.now) }
    ensures ok { OnOk result (into.new ≡ into.old ++ frame (command_of pdu.now)) }
    ensures err { OnErr result (into.new ≡ into.old) }
{
    let len = into.len();
    let put = put_pdu(into, pdu);
    if put.is_err() {
        into.truncate(len);
    }
    put
}
