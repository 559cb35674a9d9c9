//! Which reports a request asks for.

ghost use Rattle.std.specs.Prelude.{◌≡◌};
ghost use Rattle.gate_entries.specs.Entry.{kind_value};
ghost use Rattle.report_urls.specs.ReportUrl as spec;

use sms_record::{Kind, Sms};

/// The value of a kind of reports: its bit in a mask.
pub(crate) fn value_of_kind(kind: Kind) -> u8
    ensures { result ≡ kind_value kind }
{
    match kind {
        Kind::Delivered => 1,
        Kind::Undelivered => 2,
        Kind::Buffered => 4,
        Kind::Sent => 8,
        Kind::Refused => 16,
    }
}

/// Whether a message's mask has the bit of a kind of reports.
pub(crate) fn asks_for(kind: Kind, sms: &Sms) -> bool
    ensures { result ≡ spec.asks_for kind sms.now }
{
    sms.mask & value_of_kind(kind) != 0
}

/// Whether a centre that took a message is still to report on it: that it is delivered, or isn't, or is buffered. It takes no memory.
pub fn asks_centre(sms: &Sms) -> bool
    ensures { result ≡ spec.asks_centre sms.now }
{
    asks_for(Kind::Delivered, sms)
        || asks_for(Kind::Undelivered, sms)
        || asks_for(Kind::Buffered, sms)
}
