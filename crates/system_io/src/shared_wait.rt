//! Waits that several receives share.

use std::time::{Duration, Instant};

/// How many datagrams are received after a wait has passed, of those that came already: where the process was stopped meanwhile, what
/// it waited for may be among them.
const MOST_LATE: u32 = 256;

/// The least milliseconds that a socket waits, since 0 would be without limit.
const LEAST_MILLIS: u64 = 1;

/// A wait that several receives share.
#[derive(Clone, Copy)]
pub(crate) struct SharedWait {
    /// How long they wait together.
    wait: Duration,
    /// When it began.
    began: Instant,
    /// How many receives there were since it has passed.
    late: u32,
}

impl SharedWait {
    /// The wait that a receive at this time shares with those before it, or one that begins.
    pub(crate) fn at(now: Instant, wait: Duration, before: Option<SharedWait>) -> SharedWait {
        match before {
            Some(shared) if shared.wait == wait => shared,
            _ => SharedWait {
                wait,
                began: now,
                late: 0,
            },
        }
    }

    /// How long a receive at this time waits. Where the wait has passed, that is a moment for some receives, and then none.
    pub(crate) fn left(&mut self, now: Instant) -> Option<Duration> {
        let left = self.wait.saturating_sub(now.duration_since(self.began));
        if left.is_zero() {
            self.late = self.late.saturating_add(1);
        }
        let waited = left.max(Duration::from_millis(LEAST_MILLIS));
        (self.late <= MOST_LATE).then_some(waited)
    }
}
