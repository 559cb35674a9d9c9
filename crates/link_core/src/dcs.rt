//! The data coding scheme of a message (GSM 03.38, section 4).

ghost use Rattle.std.specs.Prelude.{◌≡◌, ◌≤◌, IfSome};
ghost use Rattle.link_core.specs.Dcs as spec;

use sms_record::Coding;

/// Below it coding and class stand each in bits of their own.
const WAITING: u8 = 0xC0;
/// From here on messages are stored as septets.
const WAITING_UCS2: u8 = 0xE0;
/// From here on there are a coding and a class.
const CODING_AND_CLASS: u8 = 0xF0;
/// What is added to a class.
const HAS_CLASS: u8 = 0x10;

fn coding_bits(bits: u8) -> Coding
    ensures { result ≡ spec.coding_bits bits }
{
    match bits {
        0 => Coding::Seven,
        2 => Coding::Ucs2,
        _ => Coding::Eight,
    }
}

fn coding_in(dcs: u8) -> Coding
    ensures { result ≡ spec.coding_in dcs }
{
    if dcs < WAITING {
        coding_bits(dcs / 4 % 4)
    } else if dcs < WAITING_UCS2 {
        Coding::Seven
    } else if dcs < CODING_AND_CLASS {
        Coding::Ucs2
    } else if dcs / 4 % 2 == 1 {
        Coding::Eight
    } else {
        Coding::Seven
    }
}

fn class_in(dcs: u8) -> Option<u8>
    ensures value { result ≡ spec.class_in dcs }
    ensures class { IfSome result (λ class. class ≤ 3) }
{
    let has_class = if dcs < WAITING {
        dcs / HAS_CLASS % 2 == 1
    } else {
        dcs >= CODING_AND_CLASS
    };
    if has_class { Some(dcs % 4) } else { None }
}

/// The coding and the class of a message that is heard. The reserved coding is read as octets, and bit 5 isn't looked at.
pub fn read_dcs(dcs: u8) -> (Coding, Option<u8>)
    ensures coding { result.0 ≡ spec.coding_in dcs }
    ensures class { result.1 ≡ spec.class_in dcs }
    ensures classes { IfSome result.1 (λ class. class ≤ 3) }
{
    (coding_in(dcs), class_in(dcs))
}

/// The data coding scheme of a message that is said.
pub fn dcs_of(coding: Coding, class: Option<u8>) -> u8
    requires { IfSome class (λ class. class ≤ 3) }
    ensures { result ≡ spec.dcs_of coding class }
{
    let code = match coding {
        Coding::Seven => 0,
        Coding::Eight => 4,
        Coding::Ucs2 => 8,
    };
    match class {
        None => code,
        Some(class) => code + HAS_CLASS + class,
    }
}
