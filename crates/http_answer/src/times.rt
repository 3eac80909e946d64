//! What says the time.

ghost use Rattle.std.specs.Prelude.{ℕ, Option};
ghost use Rattle.http_answer.specs.Times.{nanos};

use std::time::{Clock, Instant};

/// What says the time, by which the age of a report is counted.
pub trait Times {
    /// Which times it may say, in nanoseconds; none where it says no time.
    ghost says: { Self → Option ℕ → Type 0 };

    /// The time, if it is said.
    fn time(&self) -> Option<Instant>
        ensures said { (says self.now) (nanos result) };
}

/// A clock, of which nothing is stated.
#[derive(Clone, Copy)]
pub struct ClockTimes<'r, C> {
    /// The clock.
    pub clock: &'r C,
}

impl<'r, C: Clock> Times for ClockTimes<'r, C> {
    ghost says = { λ c now. Unit {0} };

    fn time(&self) -> Option<Instant> {
        match Instant::now(self.clock) {
            Ok(now) => Some(now),
            Err(_) => None,
        }
    }
}

/// One time, that is stated.
#[derive(Clone, Copy)]
pub struct StatedTime {
    /// The time; none where none is said.
    pub at: Option<Instant>,
}

impl Times for StatedTime {
    ghost use Rattle.std.specs.Prelude.{◌≡◌};

    ghost says = { λ c now. now ≡ nanos c.at };

    fn time(&self) -> Option<Instant> {
        self.at
    }
}
