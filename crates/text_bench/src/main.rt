//! A text of 15,300 septets is cut into its 100 parts and each is packed, 66 times over: a million septets.
//! It ends with 0 where the packed parts have the octets that they must have. `bench/text.sh` times it.
#![tactic(auto)]

ghost use Rattle.std.specs.Prelude.{◌↔◌, ◌<◌, IsTrue, All};
ghost use Rattle.sms_record.specs.declared.coding.Coding.TheVariants.{Seven};
ghost use Rattle.concat_split.specs.Parts.{AreLimits};

use concat_split::{Limits, split};
use gsm_alphabet::pack;
use kn_base::{Memory, Octets};
use sms_record::Coding;
use std::alloc::Global;
use std::process::ExitCode;

/// Septets of the text: 100 parts of 153.
const TEXT_LEN: usize = 15_300;

/// How often it is split and packed.
const ROUNDS: usize = 66;

/// Octets that the packed parts of all rounds have: 134 for each 153 septets.
const PACKED_LEN: usize = 66 * 100 * 134;

/// Whether each octet is a septet.
fn are_septets(octets: &[u8]) -> bool
    ensures { IsTrue result ↔ All (λ septet. septet < 128) octets.now }
{
    octets.iter().all(|octet| *octet < 128)
}

/// What a user with 100 joined parts may send, with nothing round the text.
fn limits(alloc: Global) -> Limits
    ensures { AreLimits Seven result }
{
    Limits {
        parts: 100,
        concatenate: true,
        split_chars: Octets::new(alloc),
        suffix: Octets::new(alloc),
        header: Octets::new(alloc),
        footer: Octets::new(alloc),
    }
}

/// The octets of the packed parts of a text, or nothing where it can't be split or memory is wanting.
fn packed_len(alloc: Global, text: &[u8]) -> Option<usize> {
    let limits = limits(alloc);
    if !are_septets(text) {
        return None;
    }
    let mut len = 0_usize;
    for part in &split(alloc, text, Coding::Seven, 0, &limits).ok()? {
        if are_septets(part.body.as_slice()) {
            len = len.saturating_add(pack(alloc, part.body.as_slice()).ok()?.len());
        }
    }
    Some(len)
}

/// The octets of all rounds.
fn all_rounds(alloc: Global) -> Option<usize> {
    let text = vec![in alloc; b'a'; TEXT_LEN].ok()?;
    let mut len = 0_usize;
    for _ in 0..ROUNDS {
        len = len.saturating_add(packed_len(alloc, text.as_slice())?);
    }
    Some(len)
}

fn main(rt: HostRuntime) -> ExitCode {
    match all_rounds(rt.alloc()) {
        Some(PACKED_LEN) => ExitCode::SUCCESS,
        _ => ExitCode::FAILURE,
    }
}
