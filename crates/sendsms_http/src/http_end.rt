//! How a session over HTTP ends.

ghost use Rattle.sendsms_http.specs.SessionSteps.{IsEndOf};

use peer_pieces::has_risen;

/// How a session over HTTP ended.
#[derive(Clone, Copy)]
pub enum HttpEnd {
    /// An answer behind which the connection closes was said whole, or the input ended behind the last request. No count of the peer rose.
    End,
    /// A take or a give failed: the peer's count of faults rose.
    Fault,
    /// Nothing came in time: the peer's count of quiets rose.
    Quiet,
    /// So many octets were taken, as many as may be, and no end came.
    Budget { taken: u64 },
    /// A take or a give found no memory: the peer's count of that rose.
    Memory,
}

// How a session ends that came to this end, by the counts of want of memory at its beginning and now.
pub(crate) fn end_of(end: HttpEnd, before: u64, now: u64) -> HttpEnd
    ensures { IsEndOf end before now result }
{
    match end {
        HttpEnd::Fault if has_risen(before, now) => HttpEnd::Memory,
        end => end,
    }
}
