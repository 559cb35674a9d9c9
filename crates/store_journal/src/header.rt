//! The first octets of an area: a text and the birth of its store.

ghost use Rattle.std.specs.Prelude.{◌≡◌};
ghost use Rattle.exact_octets.specs.Reading.{Gives};
ghost use Rattle.store_journal.specs.Area.{word_at as word_front, header_at as header_front};

use exact_octets::{Numbers, ReadFault, number_at, octet_at};

/// The text with which an area begins.
const MAGIC: &[u8] = b"KNBOX-01";

/// How many octets a birth is written in.
const BIRTH: usize = 8;

/// How many octets a header has.
pub const HEADER: usize = 16;

// What stands behind a word.
#[tactic(auto, unfolding(crate::specs::Area::word_at))]
fn behind_word<'a>(octets: &'a [u8], word: &[u8]) -> Result<&'a [u8], ReadFault>
    ensures { Gives (λ rest. (tt, rest.now)) result (word_front word.now octets.now) }
{
    match word {
        [] => Ok(octets),
        [octet, word @ ..] => {
            let (_octet, rest) = octet_at(octets, *octet, *octet)?;
            behind_word(rest, word)
        }
    }
}

/// The birth that a header tells, and what stands behind the header.
#[tactic(auto, unfolding(crate::specs::Area::header_at))]
pub fn header_at(octets: &[u8]) -> Result<(u64, &[u8]), ReadFault>
    ensures { Gives (λ x. (x.0, x.1.now)) result (header_front octets.now) }
{
    let rest = behind_word(octets, MAGIC)?;
    let (birth, rest) = number_at(rest, BIRTH, Numbers::from_to(0, u64::MAX))?;
    Ok((birth, rest))
}
