//! Calls that are numbered, some of which are to fail: what the scripts of the forms in memory have in common.

ghost use Rattle.std.specs.Prelude.{◌≡◌, ◌↔◌, IsTrue};
ghost use Rattle.kn_base.specs.Calls.{IsFailing, one_more};

use crate::raised;
use std::marker::Model;

/// Calls that are numbered from 0 in the order in which they are made, and the numbers of those that are to fail.
#[derive(Drop)]
pub struct MemCalls {
    failing: Vec<u64>,
    made: u64,
}

impl Model for MemCalls {
    ghost use Rattle.kn_base.specs.Calls.{Calls};

    ghost Value = { Calls };

    ghost view = { λ c. record { failing = c.failing.items; made = c.made } };
}

impl MemCalls {
    /// No call was made yet. It takes no memory.
    pub fn new(failing: Vec<u64>) -> MemCalls
        ensures { result ≡ record { failing = failing.items; made = 0 } }
    {
        MemCalls { failing, made: 0 }
    }

    /// The same numbers, with no call made yet.
    pub fn anew(self) -> MemCalls
        ensures { result ≡ record self { made = 0 } }
    {
        MemCalls {
            failing: self.failing,
            made: 0,
        }
    }

    /// How many calls were made.
    pub fn made(&self) -> u64
        ensures { result ≡ self.now.made }
    {
        self.made
    }

    /// Counts one call more, and answers whether it is to fail.
    pub fn next_fails(&mut self) -> bool
        ensures fails { IsTrue result ↔ IsFailing self.old }
        ensures counted { self.new ≡ one_more self.old }
    {
        let call = self.made;
        self.made = raised(call);
        self.failing.contains(&call)
    }
}
