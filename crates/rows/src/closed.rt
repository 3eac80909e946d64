//! Where no request is answered.

use http_answer::StatedTime;
use http_loop::Sockets;
use serve_core::{Bound, Pages};
use std::alloc::Global;
use std::io;
use std::time::{Clock, Duration};

/// A clock that says no time.
#[derive(Clone, Copy)]
pub(crate) struct NoClock {}

impl Clock for NoClock {
    fn monotonic(&self) -> io::Result<Duration> {
        Err(io::Error::from(io::ErrorKind::Unsupported))
    }

    fn since_1970(&self) -> io::Result<Duration> {
        Err(io::Error::from(io::ErrorKind::Unsupported))
    }
}

/// Memory for answering requests is refused.
#[derive(Clone, Copy)]
pub(crate) struct Closed {
    times: StatedTime,
}

impl Closed {
    /// Where no time is said either.
    pub(crate) fn new() -> Closed {
        Closed {
            times: StatedTime { at: None },
        }
    }
}

impl Pages for Closed {
    type Clock = NoClock;

    type Times = StatedTime;

    type Listener = Sockets;

    fn times(&self) -> &StatedTime {
        &self.times
    }

    fn open(&self, _alloc: Global, _address: &str) -> io::Result<Bound<'_, NoClock, Sockets>> {
        Err(io::Error::from(io::ErrorKind::OutOfMemory))
    }
}
