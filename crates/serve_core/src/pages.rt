//! Where requests of HTTP come.

ghost use Rattle.std.specs.Prelude.{IfOk};
ghost use Rattle.serve_core.specs.Limits.{IsOpened};

use http_answer::Times;
use http_loop::{Listener, Server};
use std::alloc::Global;
use std::io;
use std::net::SocketAddr;
use std::time::Clock;

/// A server, and the address at which requests come.
#[derive(Drop)]
pub struct Bound<'r, C: Clock, L: Listener + Drop> {
    /// The server.
    pub server: Server<'r, C, L>,
    /// Its own address.
    pub own: SocketAddr,
}

/// Where requests of HTTP come: sockets of a system, or streams in memory.
pub trait Pages {
    /// The clock by which connections are timed.
    type Clock: Clock;

    /// The clock by which the age of reports is counted.
    type Times: Times;

    /// Where streams come.
    type Listener: Listener + Drop;

    /// What says the time.
    fn times(&self) -> &Self::Times;

    /// A server at the first address of a host name and a port that can be bound, which has served no stream. It has at most 512
    /// connections, each with 10 seconds for an exchange; a head and a body have at most 16 KiB each. The error comes where no address
    /// can be bound, the system gives no clock or random numbers, or memory is refused.
    fn open(
        &self,
        alloc: Global,
        address: &str,
    ) -> io::Result<Bound<'_, Self::Clock, Self::Listener>>
        ensures opened { IfOk result (λ b. IsOpened Self.Listener.streams Self.Listener.Reader.remaining Self.Listener.Writer.contents b.server) };
}
