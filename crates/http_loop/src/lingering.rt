//! Sockets that were closed, and linger.

ghost use Rattle.std.specs.Prelude.{◌≡◌, ◌<◌, ◌≤◌, [], All, filter, length, not, slice_set};
ghost use Rattle.std.specs.Duration.{as_nanos};
ghost use Rattle.std.specs.VecDeque.{deque_items, deque_len};
ghost use Rattle.http_loop.specs.Lingering.{closed_times};
ghost use Rattle.http_loop.specs.Times.{LingerFrom, Remain, has_passed as passed};

use crate::times::has_passed;
use mio::net::TcpStream;
use std::alloc::Global;
use std::collections::VecDeque;
use std::io::{ErrorKind, Read};
use std::rc::Rc;
use std::time::{Duration, Instant};

/// Of how many sockets that were closed what still comes is passed over, at most.
const LINGERING: usize = 32;

/// How many reads of a socket that was closed there are in a round, at most.
const READS: usize = 8;

/// A socket that was closed on this side.
#[derive(Drop)]
struct Leaving {
    socket: Rc<TcpStream>,
    /// When it was closed, or from when its time is counted.
    closed: Instant,
}

/// The sockets that linger, the one that was closed first is the first.
#[derive(Drop)]
pub(crate) struct Lingering {
    leaving: VecDeque<Leaving>,
}

/// Reads what has come, and passes it over. Whether the stream has ended.
pub(crate) fn has_ended(mut socket: &TcpStream) -> bool {
    let mut buffer = [0; 4096];
    for _ in 0..READS {
        match socket.read(&mut buffer) {
            Ok(0) => return true,
            Ok(_) => {}
            Err(error) => return error.kind() != ErrorKind::WouldBlock,
        }
    }
    false
}

/// Counts the time of the socket at a place from now on.
fn count_one_anew(leaving: &mut VecDeque<Leaving>, place: usize, now: Instant)
    ensures times { closed_times (deque_items leaving.new) ≡ slice_set (closed_times (deque_items leaving.old)) place now }
    ensures len { deque_len leaving.new ≡ deque_len leaving.old }
{
    if let Some(one) = leaving.get_mut(place) {
        one.closed = now;
    }
}

impl Lingering {
    ghost use Rattle.http_loop.specs.Lingering.{how_many, times_of};

    /// None lingers.
    pub(crate) fn new(alloc: Global) -> Lingering
        ensures { times_of result ≡ [] }
    {
        Lingering {
            leaving: VecDeque::new(alloc),
        }
    }

    /// Lets go of the first one where as many linger as may.
    fn make_room(&mut self)
        ensures lingering { Remain (times_of self.old) (times_of self.new) }
        ensures few { how_many self.old ≤ LINGERING → how_many self.new < LINGERING }
    {
        if self.leaving.len() >= LINGERING {
            self.leaving.pop_front();
        }
    }

    /// One more lingers from now on. Where as many do as may the first one makes room, and where memory is refused this one doesn't linger.
    pub(crate) fn push(&mut self, socket: Rc<TcpStream>, now: Instant)
        ensures lingering { LingerFrom now (times_of self.old) (times_of self.new) }
        ensures few { how_many self.old ≤ LINGERING → how_many self.new ≤ LINGERING }
    {
        self.make_room();
        let leaving = Leaving {
            socket,
            closed: now,
        };
        let _kept = self.leaving.push_back(leaving).is_ok();
    }

    /// Passes over what has come, and lets go of those whose streams have ended.
    pub(crate) fn pass_over(&mut self)
        ensures { Remain (times_of self.old) (times_of self.new) }
    {
        self.leaving.retain(|one| !has_ended(&one.socket));
    }

    /// Lets go of those that have lingered for longer than this.
    pub(crate) fn let_go(&mut self, now: Instant, limit: Duration)
        ensures { times_of self.new ≡ filter (λ closed. not (passed closed now (as_nanos limit))) (times_of self.old) }
    {
        self.leaving
            .retain(|one| !has_passed(one.closed, now, limit));
    }

    /// Counts the time of each from now on.
    pub(crate) fn count_anew(&mut self, now: Instant)
        ensures anew { All (λ closed. closed ≡ now) (times_of self.new) }
        ensures all { length (times_of self.new) ≡ length (times_of self.old) }
    {
        for place in 0..self.leaving.len() {
            count_one_anew(&mut self.leaving, place, now);
        }
    }
}
