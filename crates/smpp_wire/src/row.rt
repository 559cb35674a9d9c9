//! Which body a command has.

ghost use Rattle.std.specs.Prelude.{◌≡◌};
ghost use Rattle.smpp_wire.specs.Grammar.{row_of as row_in_grammar};
ghost use Rattle.smpp_wire.specs.Room.{room_of as room_in_specs};

use crate::command::{
    BIND_TRANSCEIVER, BIND_TRANSCEIVER_RESP, DELIVER_SM, DELIVER_SM_RESP, ENQUIRE_LINK,
    ENQUIRE_LINK_RESP, GENERIC_NACK, SUBMIT_SM, SUBMIT_SM_RESP, UNBIND, UNBIND_RESP,
};
use crate::room::Room;

/// The rows of the table of bodies.
#[derive(Clone, Copy)]
pub(crate) enum Row {
    Bind,
    BindReply,
    Message,
    SubmitReply,
    DeliverReply,
    Nothing,
    Any,
}

/// The row of a command_id (SMPP 3.4, 5.1.2.1).
pub(crate) fn row_of(id: u32) -> Row
    ensures { result ≡ row_in_grammar id }
{
    match id {
        BIND_TRANSCEIVER => Row::Bind,
        BIND_TRANSCEIVER_RESP => Row::BindReply,
        SUBMIT_SM | DELIVER_SM => Row::Message,
        SUBMIT_SM_RESP => Row::SubmitReply,
        DELIVER_SM_RESP => Row::DeliverReply,
        GENERIC_NACK | UNBIND | UNBIND_RESP | ENQUIRE_LINK | ENQUIRE_LINK_RESP => Row::Nothing,
        _ => Row::Any,
    }
}

impl Row {
    /// How many octets its bodies have: at least a 00 for each text, at most the greatest sizes of its texts and times, and one for each other
    /// octet; where TLVs may stand, any greater number.
    pub(crate) fn room(self) -> Room
        ensures { result ≡ room_in_specs self }
    {
        match self {
            Row::Bind => Room::Between(7, 82),
            Row::BindReply => Room::From(0),
            Row::Message => Room::From(17),
            Row::SubmitReply => Room::Between(0, 65),
            Row::DeliverReply => Room::Between(1, 1),
            Row::Nothing => Room::Between(0, 0),
            Row::Any => Room::From(0),
        }
    }
}
