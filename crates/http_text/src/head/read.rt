//! Reading the head of a request, as `httparse` reads it.

ghost use Rattle.std.specs.Prelude.{◌≡◌, length, map, All, IfOk};
ghost use Rattle.httparse.specs.Spans.{IsWithin, IsHeaderWithin, header_bytes, span_bytes};
ghost use Rattle.http_text.specs.Head as spec;

use super::Head;
use super::fields::{Sign, is_announced};
use super::lines::has_too_many_lines;
use httparse::Status;
use httparse::spans::{EMPTY_HEADER_SPAN, HeaderSpan, RequestSpans, parse_request};
use kn_base::{Memory, Octets};
use std::alloc::Global;

/// How many octets of a head are looked at.
pub const HEAD_LIMIT: usize = 65_536;

/// How many header lines a head may have.
pub const LINE_LIMIT: usize = 64;

/// What octets say of the head at their front.
#[derive(Drop)]
pub enum HeadRead {
    /// A head of `len` octets stands there, of at most `LINE_LIMIT` header lines.
    Whole { head: Head, len: usize },
    /// None stands there yet, and one may come.
    NeedMore,
    /// None can come of them, whatever follows.
    Bad,
    /// The first `seen` octets, `HEAD_LIMIT` of them, hold none, and no more are looked at.
    TooLong { seen: usize },
}

/// Reads the head of a request (RFC 9112 2 to 6) at the front of octets, of which the first `HEAD_LIMIT` are looked at.
///
/// Octets that end within a target may need more although no head can come of them. `Memory`: there was none for the target.
pub fn read_head(alloc: Global, octets: &[u8]) -> Result<HeadRead, Memory>
    ensures { IfOk result (λ read. spec.IsReadAs octets.now read) }
{
    let looked_at = front(octets);
    let mut spans = [EMPTY_HEADER_SPAN; LINE_LIMIT];
    match parse_request(looked_at, &mut spans) {
        Ok(Status::Complete(request)) => {
            let head = head_of(alloc, looked_at, &request, &spans[..request.headers])?;
            Ok(HeadRead::Whole {
                head,
                len: request.len,
            })
        }
        Ok(Status::Partial) if has_too_many_lines(looked_at) => Ok(HeadRead::Bad),
        Ok(Status::Partial) if octets.len() < HEAD_LIMIT => Ok(HeadRead::NeedMore),
        Ok(Status::Partial) => Ok(HeadRead::TooLong { seen: HEAD_LIMIT }),
        Err(_) => Ok(HeadRead::Bad),
    }
}

// The octets that are looked at.
fn front(octets: &[u8]) -> &[u8]
    ensures { result.now ≡ spec.looked_at octets.now }
{
    if octets.len() > HEAD_LIMIT {
        &octets[..HEAD_LIMIT]
    } else {
        octets
    }
}

// What a head says whose parts lie at these spans.
fn head_of(
    alloc: Global,
    octets: &[u8],
    request: &RequestSpans,
    fields: &[HeaderSpan],
) -> Result<Head, Memory>
    requires method { IsWithin (length octets.now) request.now.method }
    requires target { IsWithin (length octets.now) request.now.path }
    requires fields { All (IsHeaderWithin (length octets.now)) fields.now }
    ensures { IfOk result (λ head. head ≡ spec.head_from (span_bytes octets.now request.now.method)
        request.now.version (span_bytes octets.now request.now.path)
        (map (header_bytes octets.now) fields.now)) }
{
    let target = Octets::from_slice(alloc, request.path.of(octets))?;
    Ok(Head {
        get: request.method.of(octets) == b"GET".as_slice(),
        minor: request.version,
        target,
        close: request.version == 0 || is_announced(octets, fields, Sign::Close),
        body: is_announced(octets, fields, Sign::Body),
    })
}
