//! A socket in memory that records its calls, and whose calls fail on request.

ghost use Rattle.std.specs.Prelude.{◌≡◌, ◌∷◌, [], Some, take};
ghost use Rattle.system_io.specs.Histories.{Passes};
ghost use Rattle.system_fakes.specs.MemorySockets.{socket_call_of, socket_calls_made};
ghost use Rattle.system_io.specs.Sockets.{Arrived, NoneCame, Sent};

use crate::memory_port::fill;
use std::alloc::Global;
use std::io;
use std::net::SocketAddr;
use std::time::Duration;
use system_io::Socket;

/// A call that was made at a socket.
#[derive(Drop)]
pub enum MadeSocketCall {
    /// A datagram was received, with these first 64 bytes.
    Arrived { from: SocketAddr, bytes: Vec<u8> },
    /// A receive gave no datagram.
    NoneCame,
    /// These bytes were sent, or the send failed.
    Sent { to: SocketAddr, bytes: Vec<u8> },
}

/// What comes of a call that receives.
#[derive(Clone, Copy)]
pub enum Arrival<'a> {
    /// A datagram from an address.
    Comes(SocketAddr, &'a [u8]),
    /// Nothing, for a reason.
    Fails(io::ErrorKind),
}

/// A socket at which these datagrams come, and then nothing. The send with one number fails, counted from 0.
#[derive(Drop)]
pub struct MemorySocket<'a> {
    alloc: Global,
    own: Option<SocketAddr>,
    arrivals: &'a [Arrival<'a>],
    made: Vec<MadeSocketCall>,
    is_whole: bool,
    sends: usize,
    fails_at: Option<usize>,
}

impl<'a> MemorySocket<'a> {
    /// A socket with this address, at which these datagrams come.
    pub fn new(
        alloc: Global,
        own: Option<SocketAddr>,
        arrivals: &'a [Arrival<'a>],
        fails_at: Option<usize>,
    ) -> MemorySocket<'a>
        ensures { socket_calls_made result ≡ Some [] }
    {
        MemorySocket {
            alloc,
            own,
            arrivals,
            made: Vec::new(alloc),
            is_whole: true,
            sends: 0,
            fails_at,
        }
    }

    /// The calls that were made; none where memory for one was refused.
    pub fn made(&self) -> Option<&[MadeSocketCall]> {
        if self.is_whole {
            Some(&self.made)
        } else {
            None
        }
    }

    /// Records a call.
    fn keep(&mut self, call: MadeSocketCall)
        ensures { Passes (socket_calls_made self.old) (socket_calls_made self.new) (socket_call_of call ∷ []) }
    {
        if self.made.push(call).is_err() {
            self.is_whole = false;
        }
    }

    /// Records that a datagram came.
    fn keep_arrived(&mut self, from: SocketAddr, bytes: &[u8])
        ensures { Passes (socket_calls_made self.old) (socket_calls_made self.new) (Arrived from bytes.now ∷ []) }
    {
        match Vec::from_slice(self.alloc, bytes) {
            Ok(bytes) => self.keep(MadeSocketCall::Arrived { from, bytes }),
            Err(_) => self.is_whole = false,
        }
    }

    /// Records that bytes are sent.
    fn keep_sent(&mut self, to: SocketAddr, bytes: &[u8])
        ensures { Passes (socket_calls_made self.old) (socket_calls_made self.new) (Sent to bytes.now ∷ []) }
    {
        match Vec::from_slice(self.alloc, bytes) {
            Ok(bytes) => self.keep(MadeSocketCall::Sent { to, bytes }),
            Err(_) => self.is_whole = false,
        }
    }

    /// Records that nothing came, for a reason.
    fn keep_none(&mut self, why: io::ErrorKind) -> io::Error
        ensures { Passes (socket_calls_made self.old) (socket_calls_made self.new) (NoneCame ∷ []) }
    {
        self.keep(MadeSocketCall::NoneCame);
        io::Error::from(why)
    }

    /// What comes of the next call that receives.
    fn next(&mut self) -> Arrival<'a>
        ensures { socket_calls_made self.new ≡ socket_calls_made self.old }
    {
        match self.arrivals {
            [] => Arrival::Fails(io::ErrorKind::WouldBlock),
            [first, others @ ..] => {
                self.arrivals = others;
                *first
            }
        }
    }

    /// Counts a send, and returns whether it fails.
    fn is_failing(&mut self) -> bool
        ensures { socket_calls_made self.new ≡ socket_calls_made self.old }
    {
        let fails = self.fails_at == Some(self.sends);
        self.sends = self.sends.saturating_add(1);
        fails
    }
}

impl<'a> Socket for MemorySocket<'a> {
    ghost use Rattle.system_fakes.specs.MemorySockets.{socket_calls_made};

    ghost calls = { socket_calls_made };

    fn own_address(&self) -> Option<SocketAddr> {
        self.own
    }

    fn wait_for(&mut self, _wait: Option<Duration>) -> io::Result<()> {
        Ok(())
    }

    fn receive(&mut self, buffer: &mut [u8; 64]) -> io::Result<(usize, SocketAddr)> {
        match self.next() {
            Arrival::Comes(from, datagram) => {
                let length = fill(buffer, datagram);
                self.keep_arrived(from, &buffer[..length]);
                Ok((length, from))
            }
            Arrival::Fails(why) => Err(self.keep_none(why)),
        }
    }

    fn send(&mut self, bytes: &[u8], to: SocketAddr) -> io::Result<()> {
        self.keep_sent(to, bytes);
        if self.is_failing() {
            return Err(io::Error::from(io::ErrorKind::NetworkUnreachable));
        }
        Ok(())
    }
}
