//! The statuses of answers (SMPP 3.4, 5.1.3).

ghost use Rattle.std.specs.Prelude.{◌≡◌};
ghost use Rattle.smpp_link.specs.Hearing as spec;

/// ESME_ROK: all is well.
pub(crate) const OK: u32 = 0x00;
/// ESME_RINVCMDID: such a command isn't served.
pub(crate) const INVALID_COMMAND: u32 = 0x03;
/// ESME_RSYSERR: a fault of the other side.
pub(crate) const SYSTEM_ERROR: u32 = 0x08;
/// ESME_RMSGQFUL: there is no room for a message.
pub(crate) const QUEUE_FULL: u32 = 0x14;
/// ESME_RTHROTTLED: too many messages in so short a time.
pub(crate) const THROTTLED: u32 = 0x58;
/// ESME_RX_T_APPN: a fault that passes.
pub(crate) const TEMPORARY_ERROR: u32 = 0x64;

/// Whether a message that was answered so may be sent again.
pub(crate) fn is_temporary(status: u32) -> bool
    ensures { result ≡ spec.is_temporary status }
{
    matches!(
        status,
        SYSTEM_ERROR | QUEUE_FULL | THROTTLED | TEMPORARY_ERROR
    )
}
