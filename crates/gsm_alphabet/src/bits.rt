//! The few bits that wait between one octet and the next while septets are packed or unpacked.

ghost use Rattle.std.specs.Prelude.{◌≡◌, ◌^◌, ◌<◌};

// Bits that wait for their place, fewer than eight, the lowest first.
#[derive(Clone, Copy)]
pub(crate) struct Waiting {
    pub(crate) bits: u16,
    pub(crate) count: u16,
    ghost few: { count < 8 },
    ghost fit: { bits < 2 ^ count },
}

impl Waiting {
    pub(crate) fn none() -> Waiting
        ensures bits { result.bits ≡ 0 }
        ensures count { result.count ≡ 0 }
    {
        Waiting { bits: 0, count: 0 }
    }
}
