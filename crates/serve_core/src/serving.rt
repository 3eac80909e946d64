//! The system's sockets, over which requests are answered.

ghost use Rattle.std.specs.Prelude.{◌≡◌, ◌++◌, ℕ, List, IfOk, OnErr, Some, string_bytes};
ghost use Rattle.answer_parts.specs.Printing.{OutputFails};
ghost use Rattle.serve_core.specs.Limits.{HasLimits};
ghost use Rattle.serve_core.specs.Refusals.{unbound_in};
ghost use Rattle.serve_core.specs.Serve.{MayNote, NotesUnbound, Serves, unbound_front};
ghost use Rattle.timeline.specs.Outsides.{AddsSome};

use crate::logging::line_why;
use crate::pages::{Bound, Pages};
use crate::refusals::Unbound;
use crate::task::{Serving, serve_task};
use command_line::Serve;
use http_answer::ClockTimes;
use http_loop::{Limits, Server, Sockets};
use http_server::Config;
use std::alloc::{AllocError, Global};
use std::hash::RandomState;
use std::io;
use std::net::{Net, ToSocketAddrs};
use std::random::RandomSource;
use std::time::{Clock, Duration};
use system_io::WriteFault;
use timeline::System;

/// How many connections there are at once, at most.
const CONNECTIONS: usize = 512;

/// How many bytes the body of a request has, at most.
const LONGEST_BODY: usize = 16 * 1024;

/// The system's clock and sockets.
#[derive(Clone, Copy)]
pub struct SystemPages<'r, R> {
    rt: &'r R,
    times: ClockTimes<'r, R>,
}

impl<'r, R> SystemPages<'r, R> {
    /// Over the system's own.
    pub fn new(rt: &'r R) -> SystemPages<'r, R> {
        SystemPages {
            rt,
            times: ClockTimes { clock: rt },
        }
    }
}

/// The limits of a server.
fn limits() -> Limits
    ensures { HasLimits result }
{
    Limits {
        // At most two requests of a connection are answered in a turn.
        config: Config {
            max_pending: 0,
            max_body_len: LONGEST_BODY,
            ..Config::default()
        },
        connections: CONNECTIONS,
        exchange: Duration::from_secs(10),
        sweep: Duration::from_secs(1),
    }
}

/// The sockets of the first address of a host name and a port that can be bound.
fn bound<R: Net>(rt: &R, alloc: Global, address: &str) -> io::Result<Sockets> {
    let mut refused = io::Error::from(io::ErrorKind::AddrNotAvailable);
    for at in address.to_socket_addrs(rt)? {
        match Sockets::bind(rt, alloc, at) {
            Ok(sockets) => return Ok(sockets),
            Err(error) => refused = error,
        }
    }
    Err(refused)
}

impl<'r, R: Clock + Net + RandomSource> Pages for SystemPages<'r, R> {
    type Clock = R;

    type Times = ClockTimes<'r, R>;

    type Listener = Sockets;

    fn times(&self) -> &ClockTimes<'r, R> {
        &self.times
    }

    fn open(&self, alloc: Global, address: &str) -> io::Result<Bound<'_, R, Sockets>> {
        // A peer names the fields of a request, so their maps take secret keys.
        let keys = RandomState::new(self.rt)?;
        let sockets = bound(self.rt, alloc, address)?;
        let own = sockets.address()?;
        let server = Server::new(self.rt, alloc, keys, limits(), sockets)?;
        Ok(Bound { server, own })
    }
}

/// The line that says why an address can't be bound.
fn unbound_line(alloc: Global, address: &str, error: &io::Error) -> Result<String, AllocError>
    ensures { IfOk result (λ line. (why : List ℕ) × (string_bytes line ≡ unbound_front address.now ++ why)) }
{
    match format!(in alloc; "{error}") {
        Ok(why) => line_why(alloc, address, " can't be bound: ", why.as_str()),
        Err(refused) => Err(refused),
    }
}

/// Notes why an address can't be bound.
fn note_unbound<S: System>(
    alloc: Global,
    system: &S,
    timeline: &mut S::Timeline,
    address: &str,
    error: &io::Error,
)
    ensures { AddsSome (S.outside system.now) timeline.old timeline.new (MayNote (unbound_front address.now)) }
{
    match unbound_line(alloc, address, error) {
        Ok(line) => system.note(timeline, &[line.as_str()]),
        Err(_) => {}
    }
}

/// Notes why an address can't be bound, and says which refusal that is.
fn refuse_unbound<S: System>(
    alloc: Global,
    system: &S,
    timeline: &mut S::Timeline,
    address: &str,
    error: io::Error,
) -> Unbound
    ensures { AddsSome (S.outside system.now) timeline.old timeline.new (NotesUnbound address.now (Some result)) }
{
    note_unbound(alloc, system, timeline, address, &error);
    Unbound::by(error)
}

/// A server at an address. It is noted why there is none.
fn open_noted<'g, G: Pages, S: System>(
    alloc: Global,
    pages: &'g G,
    system: &S,
    timeline: &mut S::Timeline,
    address: &str,
) -> Result<Bound<'g, G::Clock, G::Listener>, Unbound>
    ensures { AddsSome (S.outside system.now) timeline.old timeline.new (NotesUnbound address.now (unbound_in result)) }
{
    match pages.open(alloc, address) {
        Ok(bound) => Ok(bound),
        Err(error) => Err(refuse_unbound(alloc, system, timeline, address, error)),
    }
}

/// Answers requests as the words say, where they come, by `serve_task`, and returns the status. The error comes only where the output may
/// fail.
pub fn serve<G: Pages, S: System>(
    alloc: Global,
    pages: &G,
    task: &Serve<'_>,
    system: &S,
    timeline: &mut S::Timeline,
) -> Result<u8, WriteFault>
    ensures made { Serves (S.outside system.now) task.now timeline.old timeline.new result }
    ensures cause { OnErr result (OutputFails (S.outside system.now)) }
{
    let by = Serving {
        alloc,
        times: pages.times(),
        system,
    };
    let mut bound = open_noted(alloc, pages, system, timeline, task.bind);
    serve_task(&by, timeline, task, &mut bound)
}
