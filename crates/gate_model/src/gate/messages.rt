//! Messages that come and end.

ghost use Rattle.std.specs.Prelude.{◌≡◌, ◌+◌, ◌<◌, ◌≤◌, ◌^◌, ◌++◌, fold, map, vec_len};
ghost use Rattle.numbered_table.specs.Pairs.{AllBelow, without};
ghost use Rattle.gate_model.specs.Fold.{ends, sms_of, unleased};
ghost use Rattle.gate_model.specs.Gate.{model_of, Becomes};
ghost use Rattle.gate_model.specs.Numbers.{Has, numbered_from};

use crate::gate::links::lower;
use crate::{Arrival, Gate, Waiting};
use numbered_table::Table;
use sms_record::Sms;

/// Puts messages last, under the numbers from one on. It takes no memory.
pub(crate) fn put_messages(waiting: &mut Table<Waiting>, first: u64, parts: Vec<Sms>)
    requires above { AllBelow first waiting.old.pairs }
    requires room { vec_len parts ≤ waiting.old.room }
    requires fits { first + vec_len parts < 2 ^ 64 }
    ensures { waiting.new.pairs ≡ waiting.old.pairs ++ numbered_from first (map unleased parts.items) }
{
    let mut number = first;
    for sms in parts {
        waiting.push(number, Waiting { sms, lease: None });
        number += 1;
    }
}

/// Takes the values under these numbers away.
pub(crate) fn end_all(arrivals: &mut Table<Arrival>, numbers: &[u64])
    ensures { arrivals.new.pairs ≡ fold (λ pairs number. without number pairs) arrivals.old.pairs numbers.now }
{
    for number in numbers {
        let _ = arrivals.end(*number);
    }
}

impl Gate {
    /// A message no longer waits, and its link, where one has taken it, has one less in flight. The message is handed out.
    pub(crate) fn end_message(&mut self, message: u64) -> Option<Sms>
        requires held { Has self.old.waiting.pairs message }
        ensures state { Becomes self.old self.new (ends message (model_of self.old)) }
        ensures sms { result ≡ sms_of message (model_of self.old) }
        ensures reports { self.new.reports ≡ self.old.reports }
    {
        match self.waiting.end(message) {
            Some(waiting) => {
                lower(&mut self.flight, waiting.lease);
                Some(waiting.sms)
            }
            None => None,
        }
    }
}
