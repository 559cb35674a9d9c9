//! What the outcome of handing messages in is over HTTP.

ghost use Rattle.std.specs.Prelude.{◌≡◌, ◌||◌};
ghost use Rattle.sendsms_http.specs.Reply as spec;
ghost use Rattle.sendsms_http.specs.Session as session;

use gate_model::{Refusal, Reply};
use http_text::{Answer, Head, Spot};

/// The answer to a request whose messages a store answered so: 202 where it accepted them, 403 where no link may carry them,
/// 503 where the queue is full or a disk call failed, 500 where there was no memory.
pub fn answer_of(outcome: Result<Reply, Refusal>) -> Answer
    ensures { result ≡ spec.answer_of outcome }
{
    match outcome {
        Ok(Reply::Accepted { queued: false, .. }) => Answer::Accepted,
        Ok(Reply::Accepted { queued: true, .. }) => Answer::Queued,
        Ok(Reply::Noted { .. }) | Err(Refusal::Full { .. } | Refusal::Disk) => Answer::Unavailable,
        Err(Refusal::NoRoute { .. }) => Answer::NotRoutable,
        Err(Refusal::Memory) => Answer::OutOfMemory,
    }
}

// Whether the connection closes behind the answer, whatever was asked.
pub(crate) fn closes_always(answer: Answer) -> bool
    ensures { result ≡ session.closes_always answer }
{
    matches!(answer, Answer::BadRequest(Spot::Head) | Answer::OutOfMemory)
}

// Whether the connection closes behind the answer to a request with this head: it says so, or a body follows that isn't read.
pub(crate) fn is_last(head: &Head) -> bool
    ensures { result ≡ (head.now.close || head.now.body) }
{
    head.close || head.body
}

// Whether the connection closes behind an answer: it is to be closed, or by the answer.
pub(crate) fn closes(close: bool, answer: Answer) -> bool
    ensures { result ≡ (close || session.closes_always answer) }
{
    close || closes_always(answer)
}
