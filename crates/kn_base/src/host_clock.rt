//! The machine's clock. This is the trusted edge: it tells no readings.

ghost use Rattle.std.specs.Prelude.{◌≡◌, ◌<◌, ◌^◌};

use crate::Clock;
use crate::clock::CLOCK_END;
use std::rt::Clock as SystemClock;
use std::time::Duration;

/// Seconds since 1970 by the machine's clock, kept from falling.
#[derive(Drop)]
pub struct HostClock<R: SystemClock + Drop> {
    rt: R,
    latest: u64,
    ghost in_range: { latest < 2 ^ 37 },
}

impl<R: SystemClock + Drop> HostClock<R> {
    /// The clock before its first reading.
    pub fn new(rt: R) -> HostClock<R>
        ensures { ⟦<HostClock<R> as Clock>⟧.latest result ≡ 0 }
    {
        HostClock { rt, latest: 0 }
    }
}

impl<R: SystemClock + Drop> Clock for HostClock<R> {
    ghost use Rattle.std.specs.Prelude.{None};

    ghost readings = { λ _. None };

    ghost latest = { λ c. c.latest };

    fn now(&mut self) -> u64 {
        if let Ok(since_1970) = self.rt.since_1970() {
            self.latest = since_1970.as_secs().min(CLOCK_END - 1).max(self.latest);
        }
        self.latest
    }

    fn rest(&mut self, seconds: u32) {
        self.rt.sleep(Duration::from_secs(u64::from(seconds)));
    }
}
