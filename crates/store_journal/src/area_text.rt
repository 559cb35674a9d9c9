//! The text of an area: a header, units, and a closed gate.

ghost use Rattle.std.specs.Prelude.{◌≡◌, [], length, drop, IfOk, IfErr};
ghost use Rattle.exact_octets.specs.Telling.{IsPlaced};
ghost use Rattle.store_journal.specs.Area.{area_text, begins_closed, behind_units as behind_units_front, gate_place, payloads_in, IsText};
ghost use Rattle.store_journal.specs.Opening.{IsMisfit, IsMisfitOf, IsRead};

use crate::OpenFault;
use crate::header::header_at;
use crate::unit::{CLOSED, OPEN, first_unit};
use exact_octets::ReadFault;
use kn_base::Memory;
use store_disk::Area;

/// How many octets an area without payloads has: a header and a closed gate.
pub const FRESH: usize = 17;

/// The octets of an area without payloads.
pub fn fresh_area(birth: u64) -> [u8; FRESH]
    ensures { result ≡ area_text birth [] 0 }
{
    let [a, b, c, d, e, f, g, h] = birth.to_be_bytes();
    [
        b'K', b'N', b'B', b'O', b'X', b'-', b'0', b'1', a, b, c, d, e, f, g, h, CLOSED,
    ]
}

// What stands behind the units with which octets begin.
fn behind_units(octets: &[u8]) -> Result<&[u8], Memory>
    ensures { IfOk result (λ rest. rest.now ≡ behind_units_front octets.now) }
{
    let mut rest = octets;
    'units: while let Some((_payload, behind)) = first_unit(rest)? {
        rest = behind;
    }
    Ok(rest)
}

// Why an area whose header can't be read is no text.
fn misfit(area: Area, octets: &[u8], fault: ReadFault) -> OpenFault
    requires { IsPlaced (length octets.now) fault }
    ensures { IsMisfitOf area octets.now fault result }
{
    match fault {
        ReadFault::Short => OpenFault::Foreign {
            area,
            at: octets.len() as u64,
        },
        ReadFault::Malformed { left } => OpenFault::Foreign {
            area,
            at: (octets.len() - left) as u64,
        },
        ReadFault::Memory => OpenFault::Memory,
    }
}

// The birth that an area tells and what stands behind its header, or why it has none.
fn read_header(area: Area, octets: &[u8]) -> Result<(u64, &[u8]), OpenFault>
    ensures read { IfOk result (λ x. IsRead octets.now x.0 x.1.now) }
    ensures misfit { IfErr result (IsMisfit area octets.now) }
{
    match header_at(octets) {
        Ok(read) => Ok(read),
        Err(fault) => Err(misfit(area, octets, fault)),
    }
}

// Whether octets begin with a closed gate.
fn is_closed(octets: &[u8]) -> bool
    ensures { result ≡ begins_closed octets.now }
{
    match octets {
        [] => false,
        [gate, ..] => *gate != OPEN,
    }
}

/// The birth of an area and the place of its closed gate, or why it is no text.
pub fn check(area: Area, octets: &[u8]) -> Result<(u64, usize), OpenFault>
    ensures text { IfOk result (λ found. IsText octets.now found.0 (payloads_in (drop 16 octets.now))) }
    ensures end { IfOk result (λ found. found.1 ≡ gate_place (payloads_in (drop 16 octets.now))) }
    ensures misfit { IfErr result (IsMisfit area octets.now) }
{
    let (birth, rest) = read_header(area, octets)?;
    let behind = behind_units(rest)?;
    let end = octets.len() - behind.len();
    if !is_closed(behind) {
        return Err(OpenFault::Foreign {
            area,
            at: end as u64,
        });
    }
    Ok((birth, end))
}
