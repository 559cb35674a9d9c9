//! Frames that a centre says.

ghost use Rattle.std.specs.Prelude.{◌≡◌, ◌≢◌, ◌+◌, ◌≤◌, ◌++◌, All, OnOk};
ghost use Rattle.smpp_wire.specs.Command.{Nothing, fields_of};
ghost use Rattle.smpp_wire.specs.Grammar.{IsCommand, IsOf, IsText, row_of, frame};
ghost use Rattle.fake_centre.specs.Saying.{AreFrames, command_with};

use kn_base::{Memory, Octets};
use smpp_wire::{Body, Pdu, write_pdu};

/// Puts the frame of a command last.
pub(crate) fn put_command(
    into: &mut Octets,
    id: u32,
    status: u32,
    sequence: u32,
    body: &Body,
) -> Result<(), Memory>
    requires good { IsCommand (command_with id status sequence (fields_of body.now)) }
    requires frames { AreFrames into.old }
    ensures frames { OnOk result (AreFrames into.new) }
    ensures says { OnOk result (into.new ≡ into.old ++ frame (command_with id status sequence (fields_of body.now))) }
{
    let pdu = Pdu {
        id,
        status,
        sequence,
        body: *body,
    };
    write_pdu(into, &pdu)
}

/// Puts the frame of a command without a body last.
#[tactic(auto, using(crate::proofs::Commands::plain_good))]
pub(crate) fn put_plain(
    into: &mut Octets,
    id: u32,
    status: u32,
    sequence: u32,
) -> Result<(), Memory>
    requires row { IsOf (row_of id) Nothing }
    requires frames { AreFrames into.old }
    ensures frames { OnOk result (AreFrames into.new) }
    ensures says { OnOk result (into.new ≡ into.old ++ frame (command_with id status sequence Nothing)) }
{
    put_command(into, id, status, sequence, &Body::Nothing)
}

/// The first octets, `most` at most, up to an octet 00.
pub(crate) fn text_front(octets: &[u8], most: usize) -> &[u8]
    ensures text { IsText (most + 1) result.now }
    ensures whole { IsText (most + 1) octets.now → result.now ≡ octets.now }
{
    let mut end = 0;
    for octet in octets {
        if *octet == 0 || end == most {
            return &octets[..end];
        }
        end += 1;
    }
    octets
}
