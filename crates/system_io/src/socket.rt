//! The calls of a socket for datagrams.

ghost use Rattle.std.specs.Prelude.{◌≡◌, ◌≤◌, [], ◌∷◌, List, Option, IfOk};
ghost use Rattle.system_io.specs.Histories.{Passes};
ghost use Rattle.system_io.specs.Sockets.{Sent, SocketCall, receive_call};

use std::io;
use std::net::{SocketAddr, UdpSocket};
use std::time::Duration;

/// The calls of a socket for datagrams. Nothing is claimed of their effect; an instance may record which were made.
pub trait Socket {
    /// The calls that receive and send, in the order made, where they are recorded.
    ghost calls: { Self → Option (List SocketCall) };

    /// The address at which it listens, where it tells that.
    fn own_address(&self) -> Option<SocketAddr>;

    /// Sets how long a receive waits, which may be 0; none means without limit.
    fn wait_for(&mut self, wait: Option<Duration>) -> io::Result<()>
        ensures { calls self.new ≡ calls self.old };

    /// Waits for a datagram, copies its first 64 bytes to the front of the buffer, and returns how many they are and the address from
    /// which it came.
    fn receive(&mut self, buffer: &mut [u8; 64]) -> io::Result<(usize, SocketAddr)>
        ensures length { IfOk result (λ came. came.0 ≤ 64) }
        ensures made { Passes (calls self.old) (calls self.new) (receive_call result buffer.new ∷ []) };

    /// Gives a datagram to the system for an address.
    fn send(&mut self, bytes: &[u8], to: SocketAddr) -> io::Result<()>
        ensures { Passes (calls self.old) (calls self.new) (Sent to bytes.now ∷ []) };
}

impl Socket for UdpSocket {
    ghost use Rattle.std.specs.Prelude.{None};

    ghost calls = { λ _. None };

    fn own_address(&self) -> Option<SocketAddr> {
        self.local_addr().ok()
    }

    // The system's timeout is above 0.
    fn wait_for(&mut self, wait: Option<Duration>) -> io::Result<()> {
        let is_now = wait == Some(Duration::ZERO);
        self.set_nonblocking(is_now)?;
        if is_now {
            return Ok(());
        }
        self.set_read_timeout(wait)
    }

    fn receive(&mut self, buffer: &mut [u8; 64]) -> io::Result<(usize, SocketAddr)> {
        self.recv_from(buffer)
    }

    fn send(&mut self, bytes: &[u8], to: SocketAddr) -> io::Result<()> {
        self.send_to(bytes, to).map(|_| ())
    }
}
