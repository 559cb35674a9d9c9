//! How many octets there is room for, where the length of the whole is known.

ghost use Rattle.std.specs.Prelude.{◌≡◌};
ghost use Rattle.smpp_wire.specs.Room.{fits as fits_in_specs};

use crate::limits::EMPTY_TLV_LEN;

/// How many octets can be filled.
#[derive(Clone, Copy)]
pub(crate) enum Room {
    /// So many or more.
    From(u8),
    /// A number between two, or one of them.
    Between(u8, u8),
    /// As many as whole TLVs have: none, or at least those of an empty one.
    Tlvs,
}

impl Room {
    /// Whether so many octets can be filled.
    pub(crate) fn fits(self, left: usize) -> bool
        ensures { result ≡ fits_in_specs self left }
    {
        match self {
            Room::From(least) => usize::from(least) <= left,
            Room::Between(least, most) => usize::from(least) <= left && left <= usize::from(most),
            Room::Tlvs => left == 0 || EMPTY_TLV_LEN <= left,
        }
    }
}
