//! Writing a response in one piece, without taking memory.

ghost use Rattle.std.specs.Prelude.{◌≡◌, ◌≤◌, ◌+◌, ◌++◌, length, decimal};
ghost use Rattle.arrayvec.specs.ArrayVec.{array_vec_len};
ghost use Rattle.kn_base.specs.Talk.{WritesAll};
ghost use Rattle.http_text.specs.Response as spec;

use super::Response;
use arrayvec::ArrayVec;
use itoa::Buffer;
use kn_base::{Sink, Wrote, write_all};

/// No response has more octets.
const TEXT_LIMIT: usize = 256;

/// Gives the text of a response (RFC 9112 4 and 6): the status line, the fields and the body. `close` says that the connection
/// closes behind it. It takes no memory. The status has at most 32 octets, and the body at most 64.
///
/// `Failed` with how many octets went out, where a give failed: a count of the sink rose.
pub fn write_response<S: Sink>(sink: &mut S, response: Response, close: bool) -> Wrote
    requires short_status { length response.status.now ≤ 32 }
    requires short_body { length response.text.now + length response.name.now ≤ 64 }
    ensures { WritesAll (spec.response_text response.status.now (response.text.now ++ response.name.now) close) result
        (S.course sink.old) (S.course sink.new) }
{
    let text = text_of(response, close);
    write_all(sink, text.as_slice())
}

// The octets of a response.
fn text_of(response: Response, close: bool) -> ArrayVec<u8, TEXT_LIMIT>
    requires short_status { length response.status.now ≤ 32 }
    requires short_body { length response.text.now + length response.name.now ≤ 64 }
    ensures { result.items ≡ spec.response_text response.status.now (response.text.now ++ response.name.now) close }
{
    let mut text = ArrayVec::new();
    put(&mut text, b"HTTP/1.1 ");
    put(&mut text, response.status);
    put(
        &mut text,
        b"\r\nContent-Type: text/plain\r\nContent-Length: ",
    );
    put_number(&mut text, response.text.len() + response.name.len());
    put(&mut text, b"\r\nConnection: ");
    put(&mut text, connection(close));
    put(&mut text, b"\r\n\r\n");
    put(&mut text, response.text);
    put(&mut text, response.name);
    text
}

// Whether the connection closes behind a response.
fn connection(close: bool) -> &'static [u8]
    ensures value { result.now ≡ spec.connection close }
    ensures short { length result.now ≤ 10 }
{
    if close { b"close" } else { b"keep-alive" }
}

// Puts a number last, in decimal.
fn put_number(text: &mut ArrayVec<u8, TEXT_LIMIT>, number: usize)
    requires { array_vec_len text.old + 40 ≤ TEXT_LIMIT }
    ensures items { text.new.items ≡ text.old.items ++ decimal number }
    ensures len { array_vec_len text.new ≤ array_vec_len text.old + 40 }
{
    let mut buffer = Buffer::new();
    put(text, buffer.format(number).as_bytes());
}

// Puts octets last, for which there is room.
fn put(text: &mut ArrayVec<u8, TEXT_LIMIT>, octets: &[u8])
    requires { array_vec_len text.old + length octets.now ≤ TEXT_LIMIT }
    ensures items { text.new.items ≡ text.old.items ++ octets.now }
    ensures len { array_vec_len text.new ≡ array_vec_len text.old + length octets.now }
{
    let _ = text.try_extend_from_slice(octets);
}
