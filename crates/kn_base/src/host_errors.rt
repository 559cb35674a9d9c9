//! Standard error as a sink. This is the trusted edge: it tells no content.

ghost use Rattle.kn_base.specs.Course.{IsFresh};

use crate::{Give, Meter, Sink, raised};

/// The sink on standard error, for text in UTF-8.
#[derive(Drop)]
pub struct HostErrors<R: Eprint + Drop> {
    rt: R,
    faults: u64,
}

impl<R: Eprint + Drop> HostErrors<R> {
    /// The sink before its first call.
    pub fn new(rt: R) -> HostErrors<R>
        ensures { IsFresh (⟦<HostErrors<R> as Meter>⟧.course result) }
    {
        HostErrors { rt, faults: 0 }
    }
}

impl<R: Eprint + Drop> Meter for HostErrors<R> {
    ghost use Rattle.kn_base.specs.Host.{untold_course};
    ghost use Rattle.std.specs.Prelude.{false};

    ghost course = { λ s. untold_course s.faults false };

    fn starved(&self) -> u64 {
        0
    }
}

impl<R: Eprint + Drop> Sink for HostErrors<R> {
    fn give(&mut self, bytes: &[u8]) -> Give {
        let printed = match str::from_utf8(bytes) {
            Ok(text) => self.rt.eprint(text).is_ok(),
            Err(_) => false,
        };
        if printed {
            return Give::Took(bytes.len());
        }
        self.faults = raised(self.faults);
        Give::Failed
    }
}
