//! The system's sockets.

ghost use Rattle.std.specs.Prelude.{◌≡◌, [], IfOk};
ghost use Rattle.http_loop.specs.Times.{LingerFrom};

use crate::lingering::{Lingering, has_ended};
use crate::listener::Listener;
use mio::net::{TcpListener, TcpStream};
use mio::{Events, Interest, Poll, Token};
use std::alloc::Global;
use std::io;
use std::io::{ErrorKind, Read, Write};
use std::net::{Net, Shutdown, SocketAddr};
use std::rc::Rc;
use std::time::{Duration, Instant};

/// How many streams are reported as ready at once, at most: more than a server has.
const EVENTS: usize = 1024;

/// The token of the listener.
const LISTENER: Token = Token(usize::MAX);

/// The end of a socket from which is read.
#[derive(Drop)]
pub struct Incoming {
    socket: Rc<TcpStream>,
}

impl Read for Incoming {
    fn read(&mut self, buf: &mut [u8]) -> io::Result<usize> {
        let mut socket: &TcpStream = &self.socket;
        socket.read(buf)
    }
}

/// The end of a socket to which is written.
#[derive(Drop)]
pub struct Outgoing {
    socket: Rc<TcpStream>,
}

impl Write for Outgoing {
    fn write(&mut self, buf: &[u8]) -> io::Result<usize> {
        let mut socket: &TcpStream = &self.socket;
        socket.write(buf)
    }

    fn flush(&mut self) -> io::Result<()> {
        Ok(())
    }
}

/// An address of the system at which connections of TCP come.
///
/// A stream that is closed gets its end at once. Where the other side has not closed it yet the socket lingers: what still comes is passed
/// over, since a socket that is closed with bytes unread resets the connection, and the last answer may be lost. At most 32 linger, and a
/// server lets go of each after two seconds.
#[derive(Drop)]
pub struct Sockets {
    alloc: Global,
    poll: Poll,
    events: Events,
    listener: TcpListener,
    lingering: Lingering,
}

impl Sockets {
    ghost use Rattle.http_loop.specs.Lingering.{lingering_at};

    /// Listens at this address.
    pub fn bind<N: Net>(net: &N, alloc: Global, address: SocketAddr) -> io::Result<Sockets>
        ensures { IfOk result (λ sockets. lingering_at sockets ≡ []) }
    {
        let poll = Poll::new(net)?;
        let mut listener = TcpListener::bind(net, address)?;
        poll.registry()
            .register(&mut listener, LISTENER, Interest::READABLE)?;
        Ok(Sockets {
            alloc,
            poll,
            events: Events::with_capacity(alloc, EVENTS)?,
            listener,
            lingering: Lingering::new(alloc),
        })
    }

    /// The address at which it listens.
    pub fn address(&self) -> io::Result<SocketAddr> {
        self.listener.local_addr()
    }

    /// Ends a stream on this side, at this time. It lingers where the other side has not ended it.
    fn leave(&mut self, socket: Rc<TcpStream>, now: Instant)
        ensures { LingerFrom now (lingering_at self.old) (lingering_at self.new) }
    {
        if socket.shutdown(Shutdown::Write).is_err() || has_ended(&socket) {
            return;
        }
        self.lingering.push(socket, now);
    }

    /// A stream that has come, which is reported as ready under this key.
    fn accept_stream(&mut self, key: usize) -> io::Result<TcpStream>
        ensures { lingering_at self.new ≡ lingering_at self.old }
    {
        let (mut stream, _) = self.listener.accept()?;
        let _set = stream.set_nodelay(true).is_ok();
        self.poll.registry().register(
            &mut stream,
            Token(key),
            Interest::READABLE | Interest::WRITABLE,
        )?;
        Ok(stream)
    }
}

impl Listener for Sockets {
    ghost use Rattle.http_loop.specs.Lingering.{lingering_at};
    ghost use Rattle.http_loop.specs.Premises.{system_streams};

    type Reader = Incoming;

    type Writer = Outgoing;

    ghost streams = { λ _. system_streams };

    ghost lingering = { lingering_at };

    fn wait(&mut self, ready: &mut Vec<usize>, time: Duration) -> io::Result<()> {
        match self.poll.poll(&mut self.events, Some(time)) {
            Ok(()) => {}
            Err(error) if error.kind() == ErrorKind::Interrupted => {}
            Err(error) => return Err(error),
        }
        for event in &self.events {
            if event.token() != LISTENER {
                ready.push(event.token().0)?;
            }
        }
        self.lingering.pass_over();
        Ok(())
    }

    fn accept(&mut self, key: usize) -> io::Result<(Incoming, Outgoing)> {
        let stream = self.accept_stream(key)?;
        let Ok(socket) = Rc::new(self.alloc, stream) else {
            return Err(ErrorKind::OutOfMemory.into());
        };
        let outgoing = Outgoing {
            socket: socket.clone()?,
        };
        Ok((Incoming { socket }, outgoing))
    }

    fn close(&mut self, _key: usize, reader: Incoming, _writer: Outgoing, now: Instant) {
        let Incoming { socket } = reader;
        self.leave(socket, now);
    }

    fn let_go(&mut self, now: Instant, limit: Duration) {
        self.lingering.let_go(now, limit);
    }

    fn count_anew(&mut self, now: Instant) {
        self.lingering.count_anew(now);
    }
}
