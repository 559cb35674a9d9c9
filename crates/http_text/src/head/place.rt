//! Reading a head that comes in pieces, without reading all that came before each time.

ghost use Rattle.std.specs.Prelude.{◌≡◌, ◌≤◌, length, take, IfOk, IfSome};
ghost use Rattle.http_text.specs.Head as head;
ghost use Rattle.http_text.specs.Place as spec;
ghost use Rattle.http_text.specs.PlaceSteps as steps;

use super::read::{HEAD_LIMIT, HeadRead, read_head};
use httparse::{is_header_name_token, is_header_value_token, is_method_token, is_uri_token};
use kn_base::Memory;
use std::alloc::Global;

/// Where in a head octets end of which more are needed, as far as that says what may follow.
#[derive(Clone, Copy)]
pub enum Place {
    /// It isn't known: all octets are to be read.
    Unknown,
    /// Behind empty lines, or at the front.
    Blank,
    /// Behind the CR of an empty line.
    BlankReturn,
    /// In the method.
    Method,
    /// In the request target.
    Target,
    /// Behind the space that ends the target.
    Version,
    /// Where a header line begins, or the empty line behind them.
    Line,
    /// In a field's name.
    Name,
    /// Behind the colon of a field.
    Value,
    /// Behind the CR of a header line.
    ValueReturn,
}

impl Place {
    // The place behind one octet more of a head.
    fn next(self, octet: u8) -> Place
        ensures { result ≡ steps.next self octet }
    {
        match self {
            Place::Unknown => Place::Unknown,
            Place::Blank if octet == b'\n' => Place::Blank,
            Place::Blank if octet == b'\r' => Place::BlankReturn,
            Place::Blank => Place::Method,
            Place::BlankReturn => Place::Blank,
            Place::Method if octet == b' ' => Place::Target,
            Place::Method => Place::Method,
            Place::Target if octet == b' ' => Place::Version,
            Place::Target => Place::Target,
            Place::Version if octet == b'\n' => Place::Line,
            Place::Version => Place::Version,
            Place::Line if octet == b'\r' || octet == b'\n' => Place::Unknown,
            Place::Line => Place::Name,
            Place::Name if octet == b':' => Place::Value,
            Place::Name => Place::Name,
            Place::Value if octet == b'\n' => Place::Line,
            Place::Value if octet == b'\r' => Place::ValueReturn,
            Place::Value => Place::Value,
            Place::ValueReturn => Place::Line,
        }
    }

    // Whether what stands there goes on with an octet, and the head doesn't end with it.
    fn goes_on(self, octet: u8) -> bool
        ensures { result ≡ steps.goes_on self octet }
    {
        match self {
            Place::Unknown | Place::Version | Place::Line => false,
            Place::Blank => octet == b'\r' || octet == b'\n',
            Place::BlankReturn | Place::ValueReturn => octet == b'\n',
            Place::Method => is_method_token(octet),
            Place::Target => is_uri_token(octet),
            Place::Name => octet == b':' || is_header_name_token(octet),
            Place::Value => octet == b'\r' || octet == b'\n' || is_header_value_token(octet),
        }
    }
}

/// Reads the head of a request at the front of octets, as `read_head` does, where the first `before` of them were read already.
///
/// `place` is what was answered then, or `Place::Unknown`. The answer's place is where all the octets end. `Memory`: there was
/// none for the target.
pub fn read_more(
    alloc: Global,
    octets: &[u8],
    before: usize,
    place: Place,
) -> Result<(HeadRead, Place), Memory>
    requires within { before ≤ length octets.now }
    requires place { spec.EndsAt place (take before octets.now) }
    ensures read { IfOk result (λ read. head.IsReadAs octets.now read.0) }
    ensures place { IfOk result (λ read. spec.EndsAt read.1 octets.now) }
{
    if octets.len() < HEAD_LIMIT
        && let Some(place) = place_behind(octets, before, place)
    {
        return Ok((HeadRead::NeedMore, place));
    }
    let read = read_head(alloc, octets)?;
    let place = match &read {
        HeadRead::NeedMore => place_of(octets),
        _ => Place::Unknown,
    };
    Ok((read, place))
}

// Where octets end that goes on from where the first of them end, if that shows without reading these again.
fn place_behind(octets: &[u8], before: usize, place: Place) -> Option<Place>
    requires within { before ≤ length octets.now }
    requires place { spec.EndsAt place (take before octets.now) }
    ensures place { IfSome result (λ found. spec.EndsAt found octets.now) }
    ensures open { IfSome result (λ found. head.IsOpen octets.now) }
{
    let mut found = place;
    for octet in &octets[before..] {
        if !found.goes_on(*octet) {
            return None;
        }
        found = found.next(*octet);
    }
    match found {
        Place::Unknown => None,
        _ => Some(found),
    }
}

// Where octets end of which more are needed.
fn place_of(octets: &[u8]) -> Place
    requires { head.IsOpen octets.now }
    ensures { spec.EndsAt result octets.now }
{
    let mut place = Place::Blank;
    for octet in octets {
        place = place.next(*octet);
    }
    place
}
