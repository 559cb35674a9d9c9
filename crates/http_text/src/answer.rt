//! The answers that a requester can get, and what each says: one row an answer.

ghost use Rattle.std.specs.Prelude.{◌≡◌, ◌≤◌, ◌+◌, [], ◌++◌, length};
ghost use Rattle.kn_base.specs.Talk.{WritesAll};
ghost use Rattle.http_text.specs.Answer as spec;

mod spot;

use crate::{Response, write_response};
use kn_base::{Memory, Sink, Wrote};
pub use spot::Spot;

/// An answer over HTTP.
#[derive(Clone, Copy)]
pub enum Answer {
    /// 202: the message is stored, and a link that can take it is up.
    Accepted,
    /// 202: the message is stored, and waits for a link.
    Queued,
    /// 400: the request can't be read so.
    BadRequest(Spot),
    /// 404: the path isn't that of sendsms.
    UnknownPath,
    /// 403: the name and password aren't those of a user.
    Unauthorized,
    /// 403: no link may carry the message.
    NotRoutable,
    /// 503: the message isn't stored now, but may be later.
    Unavailable,
    /// 500: there was no memory.
    OutOfMemory,
}

/// Gives the text of an answer: the status line, the fields and the body. `close` says that the connection closes behind it. It takes
/// no memory.
///
/// `Failed` with how many octets went out, where a give failed: a count of the sink rose.
pub fn write_answer<S: Sink>(sink: &mut S, answer: Answer, close: bool) -> Wrote
    ensures { WritesAll (spec.reply_text answer close) result (S.course sink.old) (S.course sink.new) }
{
    write_response(sink, answer.row(), close)
}

impl Answer {
    // What it says.
    fn row(self) -> Response
        ensures status { result.status.now ≡ (spec.row self).status }
        ensures body { result.text.now ++ result.name.now ≡ (spec.row self).body }
        ensures short_status { length result.status.now ≤ 32 }
        ensures short_body { length result.text.now + length result.name.now ≤ 64 }
    {
        match self {
            Answer::Accepted => plain(b"202 Accepted", b"0: Accepted for delivery"),
            Answer::Queued => plain(b"202 Accepted", b"3: Queued for later delivery"),
            Answer::BadRequest(spot) => Response {
                status: b"400 Bad Request",
                text: b"Bad request: ",
                name: spot.name(),
            },
            Answer::UnknownPath => plain(b"404 Not Found", b"Unknown path."),
            Answer::Unauthorized => plain(b"403 Forbidden", b"Authorization failed for sendsms"),
            Answer::NotRoutable => plain(b"403 Forbidden", b"Not routable. Do not try again."),
            Answer::Unavailable => plain(
                b"503 Service Unavailable",
                b"Temporal failure, try again later.",
            ),
            Answer::OutOfMemory => plain(b"500 Internal Server Error", b"Out of memory."),
        }
    }
}

// A row whose body ends with no name.
fn plain(status: &'static [u8], text: &'static [u8]) -> Response
    ensures status { result.status.now ≡ status.now }
    ensures text { result.text.now ≡ text.now }
    ensures no_name { result.name.now ≡ [] }
{
    Response {
        status,
        text,
        name: b"",
    }
}

impl From<Memory> for Answer {
    ghost use Rattle.std.specs.Prelude.{◌≡◌};
    ghost use Rattle.http_text.specs.declared.answer.Answer.TheVariants.{OutOfMemory};

    ghost from_gives = { λ _ answer. answer ≡ OutOfMemory };

    fn from(_memory: Memory) -> Answer {
        Answer::OutOfMemory
    }
}
