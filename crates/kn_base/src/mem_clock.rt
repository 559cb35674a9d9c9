//! A clock in memory, whose readings stand beforehand.

ghost use Rattle.std.specs.Prelude.{◌≡◌, ◌≤◌, ◌<◌, ◌^◌, [], Some, take, slice_index};
ghost use Rattle.kn_base.specs.Clock.{Adds};
ghost use Rattle.kn_base.specs.Count.{next_count};
ghost use Rattle.kn_base.specs.Readings.{greatest, reading_at};

use crate::clock::CLOCK_END;
use crate::{Clock, raised};
use std::alloc::Global;

/// A clock that reads the answers of a list in order, and repeats the last one; without answers it reads 0.
///
/// An answer below an earlier one is read as the earlier one, and one from `CLOCK_END` on as the last second
/// before it. It takes no memory, and tells its readings until it was read 2^64 - 1 times: from then on it reads as
/// before, but can't count how often.
#[derive(Drop)]
pub struct MemClock {
    answers: Vec<u64>,
    reads: u64,
    latest: u64,
    ghost in_range: { latest < 2 ^ 37 },
    ghost is_greatest: { latest ≡ greatest (take reads answers.items) },
}

impl MemClock {
    ghost use Rattle.kn_base.specs.MemClock.{answers_of, reads_of, readings_of, latest_of};

    /// A clock that wasn't read yet. It takes no memory.
    pub fn new(_alloc: Global, readings: Vec<u64>) -> MemClock
        ensures answers { answers_of result ≡ readings.items }
        ensures reads { reads_of result ≡ 0 }
        ensures told { readings_of result ≡ Some [] }
        ensures latest { latest_of result ≡ 0 }
    {
        MemClock {
            answers: readings,
            reads: 0,
            latest: 0,
        }
    }

    /// The clock with its list, as one that wasn't read yet.
    pub fn anew(self) -> MemClock
        ensures answers { answers_of result ≡ answers_of self }
        ensures reads { reads_of result ≡ 0 }
        ensures told { readings_of result ≡ Some [] }
        ensures latest { latest_of result ≡ 0 }
    {
        MemClock {
            answers: self.answers,
            reads: 0,
            latest: 0,
        }
    }
}

/// The answer of that number, from 0, and 0 where there are not so many.
fn answer_at(answers: &[u64], number: u64) -> u64
    ensures { result ≡ slice_index answers.now number }
{
    answers.get(number as usize).copied().unwrap_or(0)
}

impl Clock for MemClock {
    ghost use Rattle.kn_base.specs.MemClock.{answers_of, reads_of, readings_of, latest_of};

    ghost readings = { readings_of };

    ghost latest = { latest_of };

    /// Reads the clock: the greatest of the answers up to this call's own.
    fn now(&mut self) -> u64
        ensures range { result < 2 ^ 37 }
        ensures order { latest_of self.old ≤ result }
        ensures latest { latest_of self.new ≡ result }
        ensures told { Adds result (readings_of self.old) (readings_of self.new) }
        ensures reading { result ≡ reading_at (answers_of self.old) (reads_of self.old) }
        ensures answers { answers_of self.new ≡ answers_of self.old }
        ensures reads { reads_of self.new ≡ next_count (reads_of self.old) }
    {
        let answer = answer_at(&self.answers, self.reads);
        self.reads = raised(self.reads);
        self.latest = answer.min(CLOCK_END - 1).max(self.latest);
        self.latest
    }

    /// Lets no time pass, and leaves the answers and how often they were read.
    fn rest(&mut self, _seconds: u32)
        ensures told { readings_of self.new ≡ readings_of self.old }
        ensures latest { latest_of self.new ≡ latest_of self.old }
        ensures answers { answers_of self.new ≡ answers_of self.old }
        ensures reads { reads_of self.new ≡ reads_of self.old }
    {}
}
