//! The fields of any length: the header, the body, and the names.

ghost use Rattle.std.specs.Prelude.{◌≡◌, ◌++◌, IfOk, OnOk, OnErr};
ghost use Rattle.exact_octets.specs.Growth.{Keeps};
ghost use Rattle.exact_octets.specs.Reading.{Gives};
ghost use Rattle.sms_record.specs.Record.{IsSms, contents};
ghost use Rattle.sms_record.specs.RecordReading.{alphabet_of as alphabet_from, body_lens, body_at as body_front, contents_in, contents_at as contents_front};

use crate::header::udh_at;
use crate::limits::MOST_BODY;
use crate::record::names::{Names, copy_names, names_at, put_names};
use crate::record::pair::copy_pair;
use crate::{Coding, Sms};
use exact_octets::{Alphabet, Numbers, ReadFault, counted_at, put_long, put_short};
use kn_base::{Memory, Octets};
use std::alloc::Global;

/// The header, the body and the names.
#[derive(Drop)]
pub(crate) struct Contents {
    pub udh: Octets,
    pub body: Octets,
    pub names: Names,
}

fn alphabet_of(coding: Coding) -> Alphabet
    ensures { result ≡ alphabet_from coding }
{
    match coding {
        Coding::Seven => Alphabet::Septet,
        Coding::Eight | Coding::Ucs2 => Alphabet::Any,
    }
}

/// How many octets a body of a coding may have.
fn lens_of(coding: Coding) -> Numbers
    ensures { result ≡ body_lens coding }
{
    match coding {
        Coding::Seven | Coding::Eight => Numbers::from_to(0, MOST_BODY),
        Coding::Ucs2 => Numbers::even_up_to(MOST_BODY),
    }
}

fn body_at(octets: &[u8], coding: Coding) -> Result<(&[u8], &[u8]), ReadFault>
    ensures { Gives (λ x. (x.0.now, x.1.now)) result (body_front coding octets.now) }
{
    counted_at(octets, 2, lens_of(coding), alphabet_of(coding))
}

/// The header, the body of a coding and the names at the front.
#[tactic(auto, unfolding(crate::specs::RecordReading::contents_at))]
pub(crate) fn contents_at(
    alloc: Global,
    octets: &[u8],
    coding: Coding,
) -> Result<(Contents, &[u8]), ReadFault>
    ensures { Gives (λ x. (x.0, x.1.now)) result (contents_front coding octets.now) }
{
    let (udh, rest) = udh_at(octets)?;
    let (body, rest) = body_at(rest, coding)?;
    let (udh, body) = copy_pair(alloc, udh, body)?;
    let (names, rest) = names_at(alloc, rest)?;
    Ok((Contents { udh, body, names }, rest))
}

/// Puts the contents of a message last.
pub(crate) fn put_contents(into: &mut Octets, sms: &Sms) -> Result<(), Memory>
    requires { IsSms sms.now }
    ensures ok { OnOk result (into.new ≡ into.old ++ contents sms.now) }
    ensures err { OnErr result (Keeps into.old into.new) }
{
    put_short(into, sms.udh.as_slice())?;
    put_long(into, sms.body.as_slice())?;
    put_names(into, sms)
}

/// The contents of a message, in memory of their own.
pub(crate) fn copy_contents(alloc: Global, sms: &Sms) -> Result<Contents, Memory>
    ensures { IfOk result (λ copy. copy ≡ contents_in sms.now) }
{
    let (udh, body) = copy_pair(alloc, sms.udh.as_slice(), sms.body.as_slice())?;
    let names = copy_names(alloc, sms)?;
    Ok(Contents { udh, body, names })
}
