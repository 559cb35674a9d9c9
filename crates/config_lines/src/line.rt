//! One line of a configuration.

ghost use Rattle.std.specs.Prelude.{◌≡◌, IfOk, Some, None, IsErrOf};
ghost use Rattle.config_lines.specs.Line as spec;

use crate::value::value_of;
use kn_base::{Memory, Octets};
use std::alloc::Global;

/// The most octets that a name has.
const MOST_NAME: usize = 64;

/// What a line says.
#[derive(Drop)]
pub enum Line {
    /// Nothing: it ends a group.
    Blank,
    /// A comment, which ends nothing.
    Comment,
    /// A name of 1 to 64 octets and its value, with the escapes of the value read.
    Variable { name: Octets, value: Octets },
}

/// Why octets are no line.
#[derive(Clone, Copy)]
pub enum LineFault {
    /// They are outside the grammar.
    NoLine,
    /// There was no memory.
    Memory,
}

/// Whether an octet is a blank: space or TAB.
fn is_blank(octet: u8) -> bool
    ensures { result ≡ spec.is_blank octet }
{
    octet == b' ' || octet == b'\t'
}

/// The octets without the blanks at their front.
fn behind_blanks(octets: &[u8]) -> &[u8]
    ensures { result.now ≡ spec.behind_blanks octets.now }
{
    for (at, octet) in octets.iter().enumerate() {
        if !is_blank(*octet) {
            return &octets[at..];
        }
    }
    &[]
}

/// The octets without the blanks at their end.
#[tactic(auto, using(crate::proofs::Blanks::blank_goes, crate::proofs::Blanks::other_stays))]
fn before_blanks(octets: &[u8]) -> &[u8]
    ensures { result.now ≡ spec.before_blanks octets.now }
{
    let mut rest = octets;
    for _ in 0..octets.len() {
        match rest {
            [front @ .., last] if is_blank(*last) => rest = front,
            _ => return rest,
        }
    }
    rest
}

/// The name at the front, and what stands behind it.
fn cut_name(octets: &[u8]) -> (&[u8], &[u8])
    ensures name { result.0.now ≡ spec.name_of octets.now }
    ensures rest { result.1.now ≡ spec.behind_name octets.now }
{
    for (at, octet) in octets.iter().enumerate() {
        if is_blank(*octet) || *octet == b'=' {
            return octets.split_at(at);
        }
    }
    (octets, &[])
}

/// The value behind a name: optional blanks, `=`, optional blanks and the value.
fn assigned(alloc: Global, octets: &[u8]) -> Result<Option<Octets>, Memory>
    ensures { IfOk result (λ value. value ≡ spec.assigned (spec.behind_blanks octets.now)) }
{
    match behind_blanks(octets) {
        [b'=', rest @ ..] => value_of(alloc, behind_blanks(rest)),
        _ => Ok(None),
    }
}

/// The variable that octets without blanks around them set, if they set one.
fn variable_of(alloc: Global, octets: &[u8]) -> Result<Option<Line>, Memory>
    ensures { IfOk result (λ line. line ≡ spec.variable_of octets.now) }
{
    let (name, rest) = cut_name(octets);
    if name.is_empty() || name.len() > MOST_NAME {
        return Ok(None);
    }
    let Some(value) = assigned(alloc, rest)? else {
        return Ok(None);
    };
    let name = Octets::from_slice(alloc, name)?;
    Ok(Some(Line::Variable { name, value }))
}

/// What a line says, of its octets without its end (docs/FORMATS.md, 'Configuration').
///
/// `NoLine` exactly where they are outside the grammar, unless memory was wanting. `Memory`.
pub fn read_line(alloc: Global, octets: &[u8]) -> Result<Line, LineFault>
    ensures line { IfOk result (λ line. spec.line_of octets.now ≡ Some line) }
    ensures none { IsErrOf result LineFault.NoLine → spec.line_of octets.now ≡ None }
{
    match before_blanks(behind_blanks(octets)) {
        [] => Ok(Line::Blank),
        [b'#', ..] => Ok(Line::Comment),
        said => match variable_of(alloc, said) {
            Ok(Some(line)) => Ok(line),
            Ok(None) => Err(LineFault::NoLine),
            Err(Memory) => Err(LineFault::Memory),
        },
    }
}
