//! A UDP port over the calls of a socket.

ghost use Rattle.std.specs.Prelude.{◌≡◌, ◌≢◌, ◌≤◌, ◌<◌, ◌∷◌, [], Some, None, length, map, take, IfOk, IfSome, OnErr};
ghost use Rattle.system_io.specs.Failures.{Counts, Risen};
ghost use Rattle.system_io.specs.Histories.{Passes};
ghost use Rattle.system_io.specs.Places.{IsBound, ListensAt};
ghost use Rattle.system_io.specs.Sockets.{Sent};
ghost use Rattle.system_io.specs.UdpPorts.{Hears, HearsNothing, HearsOrNothing, passed_on, sent_at, udp_facts};

use crate::notes::Notes;
use crate::port::{NO_TAG, Port, PortFault};
use crate::recipient::{Addressed, Recipient, all_addressed};
use crate::shared_wait::SharedWait;
use crate::socket::Socket;
use std::alloc::{AllocError, Global};
use std::io;
use std::io::Write;
use std::net::{Net, SocketAddr, UdpSocket};
use std::time::{Clock, Duration, Instant};

/// A socket, a clock for its waits, the address to which it was bound, the one that it told as its own then, and those to whom it
/// sends.
///
/// Among these `sender` stands for the address from which the last datagram came. Where nothing came yet, nothing goes to it. A host
/// name is looked up once, when the port is bound. What it names, and when sends to an address begin to fail or work again, is told in
/// lines by a writer: `to NAME ADDR`, `to NAME unknown`, `lost ADDR`, `back ADDR`.
#[derive(Drop)]
pub struct UdpPort<'a, C: Clock, S: Socket + Drop, W: Write + Drop> {
    clock: &'a C,
    socket: S,
    address: String,
    own: Option<SocketAddr>,
    to: Vec<Addressed>,
    /// The address from which the last datagram came.
    sender: Option<SocketAddr>,
    notes: Notes<W>,
    /// How long the socket waits for a datagram; none means without limit.
    wait: Option<Duration>,
    /// The wait that the last receives have shared, if it goes on.
    shared: Option<SharedWait>,
    failures: u64,
}

/// Whether a receive failed only because nothing came in time.
fn is_quiet(error: &io::Error) -> bool {
    matches!(
        error.kind(),
        io::ErrorKind::WouldBlock | io::ErrorKind::TimedOut
    )
}

/// Whether a receive failed only because a signal came, as where the process was stopped and continued.
fn is_interrupted(error: &io::Error) -> bool {
    error.kind() == io::ErrorKind::Interrupted
}

/// How many bytes of a datagram are passed on: all of them, but 63 of 64 that are all zero. These are how a sealed port passes on
/// a datagram without a right tag.
fn passed_on(bytes: &[u8]) -> usize
    ensures fits { result ≤ length bytes.now }
    ensures is { take result bytes.now ≡ passed_on bytes.now }
{
    if bytes == NO_TAG.as_slice() {
        bytes.len() - 1
    } else {
        bytes.len()
    }
}

/// Tells whom the host names among these words name.
fn tell_names<W: Write + Drop>(notes: &mut Notes<W>, to: &[Addressed]) {
    for one in to {
        notes.tell_name(one.word.as_str(), one.who);
    }
}

impl<'a, C: Clock, W: Write + Drop> UdpPort<'a, C, UdpSocket, W> {
    /// A port bound to an address that sends to those whom these words name: `sender`, or an IP address or a host name, a colon and a
    /// port number. The address is an IP address or a host name, a colon and a port number too. The error comes where it can't be bound,
    /// or memory is refused. A host name names its first address of the kind, IPv4 or IPv6, of the port's own; where there is none, each
    /// send to it fails.
    pub fn bind(
        rt: &'a C,
        alloc: Global,
        notes: W,
        address: &str,
        to: &[&str],
    ) -> io::Result<UdpPort<'a, C, UdpSocket, W>>
    where
        C: Net,
        ensures { IfOk result (IsBound address.now (map (λ s. s.now) to.now)) }
    {
        let socket = UdpSocket::bind(rt, address)?;
        Ok(UdpPort::over(rt, alloc, socket, notes, address, to)?)
    }
}

impl<'a, C: Clock, S: Socket + Drop, W: Write + Drop> UdpPort<'a, C, S, W> {
    /// A port over a socket that is already bound to this address, a clock for its waits, and a writer for notes.
    pub fn over(
        clock: &'a C,
        alloc: Global,
        socket: S,
        notes: W,
        address: &str,
        to: &[&str],
    ) -> Result<UdpPort<'a, C, S, W>, AllocError>
    where
        C: Net,
        ensures bound { IfOk result (IsBound address.now (map (λ s. s.now) to.now)) }
        ensures fresh { IfOk result (λ port. ((udp_facts S.calls port).calls ≡ S.calls socket) × ((udp_facts S.calls port).sender ≡ None)) }
    {
        let own = socket.own_address();
        let address = String::from_str(alloc, address)?;
        let to = all_addressed(clock, alloc, to, own)?;
        let mut notes = Notes::new(alloc, notes, to.len())?;
        tell_names(&mut notes, &to);
        Ok(UdpPort {
            clock,
            socket,
            address,
            own,
            to,
            sender: None,
            notes,
            wait: None,
            shared: None,
            failures: 0,
        })
    }

    /// The address at which it listens, as the socket told it when it was bound, if it did.
    pub fn own_address(&self) -> Option<SocketAddr>
        ensures { ListensAt self.now result }
    {
        self.own
    }

    /// The socket.
    pub fn socket(&self) -> &S
        ensures { S.calls result.now ≡ (udp_facts S.calls self.now).calls }
    {
        &self.socket
    }

    /// Counts one failure.
    fn fail(&mut self) -> PortFault
        ensures risen { Risen self.old.failures self.new.failures }
        ensures count { self.old.failures ≤ self.new.failures }
        ensures facts { udp_facts S.calls self.new ≡ udp_facts S.calls self.old }
        ensures same { self.new.to ≡ self.old.to }
    {
        self.failures = self.failures.saturating_add(1);
        PortFault::Failed
    }

    /// Sets how long the socket waits; none means without limit.
    fn wait_for(&mut self, wait: Option<Duration>) -> io::Result<()>
        ensures facts { udp_facts S.calls self.new ≡ udp_facts S.calls self.old }
        ensures same { self.new.to ≡ self.old.to }
        ensures failures { self.new.failures ≡ self.old.failures }
    {
        if self.wait != wait {
            self.socket.wait_for(wait)?;
            self.wait = wait;
        }
        Ok(())
    }

    /// How long the next datagram is awaited, of a wait that the receives share. Where it has passed, that is a moment for some
    /// receives, and then none. A wait of 0 is no wait, and none shares it.
    fn left_of(&mut self, wait: Duration) -> io::Result<Option<Duration>>
        ensures facts { udp_facts S.calls self.new ≡ udp_facts S.calls self.old }
        ensures same { self.new.to ≡ self.old.to }
        ensures failures { self.new.failures ≡ self.old.failures }
    {
        if wait.is_zero() {
            self.shared = None;
            return Ok(Some(wait));
        }
        let now = Instant::now(self.clock)?;
        let mut shared = SharedWait::at(now, wait, self.shared);
        let left = shared.left(now);
        self.shared = Some(shared);
        Ok(left)
    }

    /// Receives a datagram, and tells how many bytes of it are passed on.
    fn take_next(&mut self, buffer: &mut [u8; 64]) -> io::Result<usize>
        ensures length { IfOk result (λ n. n ≤ 64) }
        ensures hears { IfOk result (λ n. Hears (udp_facts S.calls self.old) (udp_facts S.calls self.new) (take n buffer.new)) }
        ensures deaf { OnErr result (HearsNothing (udp_facts S.calls self.old) (udp_facts S.calls self.new)) }
        ensures same { self.new.to ≡ self.old.to }
        ensures failures { self.new.failures ≡ self.old.failures }
    {
        match self.socket.receive(buffer) {
            Ok((length, from)) => {
                self.sender = Some(from);
                Ok(passed_on(&buffer[..length]))
            }
            Err(error) => Err(error),
        }
    }

    /// Waits for a datagram at most this long; none means without limit.
    fn receive_within(&mut self, wait: Option<Duration>, buffer: &mut [u8; 64]) -> io::Result<usize>
        ensures length { IfOk result (λ n. n ≤ 64) }
        ensures hears { IfOk result (λ n. Hears (udp_facts S.calls self.old) (udp_facts S.calls self.new) (take n buffer.new)) }
        ensures deaf { OnErr result (HearsNothing (udp_facts S.calls self.old) (udp_facts S.calls self.new)) }
        ensures same { self.new.to ≡ self.old.to }
        ensures failures { self.new.failures ≡ self.old.failures }
    {
        self.wait_for(wait)?;
        self.take_next(buffer)
    }

    /// Waits for a datagram for what is left of a wait that the receives share. None where nothing came in time.
    fn receive_in_shared(
        &mut self,
        wait: Duration,
        buffer: &mut [u8; 64],
    ) -> io::Result<Option<usize>>
        ensures length { IfOk result (λ got. IfSome got (λ n. n ≤ 64)) }
        ensures hears { IfOk result (HearsOrNothing (udp_facts S.calls self.old) (udp_facts S.calls self.new) buffer.new) }
        ensures deaf { OnErr result (HearsNothing (udp_facts S.calls self.old) (udp_facts S.calls self.new)) }
        ensures same { self.new.to ≡ self.old.to }
        ensures failures { self.new.failures ≡ self.old.failures }
    {
        let Some(left) = self.left_of(wait)? else {
            return Ok(None);
        };
        match self.receive_within(Some(left), buffer) {
            Ok(length) => Ok(Some(length)),
            Err(error) if is_quiet(&error) => Ok(None),
            Err(error) => Err(error),
        }
    }

    /// Sends to an address, which is that of the one at this place.
    fn send_to(&mut self, place: usize, address: SocketAddr, bytes: &[u8]) -> Result<(), PortFault>
        ensures calls { Passes (S.calls self.old.socket) (S.calls self.new.socket) (Sent address bytes.now ∷ []) }
        ensures sender { self.new.sender ≡ self.old.sender }
        ensures same { self.new.to ≡ self.old.to }
        ensures count { self.old.failures ≤ self.new.failures }
        ensures counts { Counts result self.old.failures self.new.failures }
    {
        // A receive that waits for nothing leaves the socket so; a send waits for room.
        if self.wait == Some(Duration::ZERO) {
            let _set = self.wait_for(None).is_ok();
        }
        let is_taken = self.socket.send(bytes, address).is_ok();
        self.notes.tell_sent(place, address, is_taken);
        if is_taken { Ok(()) } else { Err(self.fail()) }
    }

    /// Sends to the one at a place. Nothing goes to a host name that wasn't found, which is a failure, and to the sender where nothing
    /// came yet.
    fn send_one(&mut self, place: usize, bytes: &[u8]) -> Result<(), PortFault>
        requires { place < length self.old.to.items }
        ensures calls { Passes (S.calls self.old.socket) (S.calls self.new.socket) (sent_at self.old.sender self.old.to.items place bytes.now) }
        ensures sender { self.new.sender ≡ self.old.sender }
        ensures same { self.new.to ≡ self.old.to }
        ensures count { self.old.failures ≤ self.new.failures }
        ensures counts { Counts result self.old.failures self.new.failures }
    {
        match self.to[place].who {
            Recipient::At(address) => self.send_to(place, address, bytes),
            Recipient::Unknown => Err(self.fail()),
            Recipient::Sender => match self.sender {
                Some(address) => self.send_to(place, address, bytes),
                None => Ok(()),
            },
        }
    }
}

impl<'a, C: Clock, S: Socket + Drop, W: Write + Drop> Port for UdpPort<'a, C, S, W> {
    ghost use Rattle.std.specs.Prelude.{◌≡◌, ◌≤◌, [], ◌∷◌, None, Ok, take, IfOk, IfSome, OnErr};
    ghost use Rattle.std.specs.Duration.{as_nanos};
    ghost use Rattle.system_io.specs.Failures.{Risen};
    ghost use Rattle.system_io.specs.Ports.{Came, Quiet, Missed, Passed, to_each};
    ghost use Rattle.system_io.specs.UdpPorts.{Hears, HearsNothing, Sends, udp_facts, udp_port_facts};

    ghost facts = { udp_port_facts };

    fn sender(&self) -> Option<SocketAddr>
        ensures { result ≡ (udp_facts S.calls self.now).sender }
    {
        self.sender
    }

    fn answer(&mut self, sender: Option<SocketAddr>)
        ensures same { udp_port_facts self.new ≡ udp_port_facts self.old }
        ensures to { udp_facts S.calls self.new ≡ record (udp_facts S.calls self.old) { sender = sender } }
    {
        self.sender = sender;
    }

    // A receive that a signal interrupts is none: the wait goes on.
    fn receive(&mut self, buffer: &mut [u8; 64]) -> Result<usize, PortFault>
        ensures length { IfOk result (λ n. n ≤ 64) }
        ensures came { IfOk result (λ n. Passed (udp_port_facts self.old) (udp_port_facts self.new) (Came (take n buffer.new) ∷ [])) }
        ensures missed { OnErr result (Passed (udp_port_facts self.old) (udp_port_facts self.new) (Missed ∷ [])) }
        ensures cause { OnErr result (Risen (udp_port_facts self.old).faults (udp_port_facts self.new).faults) }
        ensures hears { IfOk result (λ n. Hears (udp_facts S.calls self.old) (udp_facts S.calls self.new) (take n buffer.new)) }
        ensures deaf { OnErr result (HearsNothing (udp_facts S.calls self.old) (udp_facts S.calls self.new)) }
    {
        for _ in 0..u64::MAX {
            match self.receive_within(None, buffer) {
                Ok(length) => return Ok(length),
                Err(error) if is_interrupted(&error) => {}
                Err(_) => return Err(self.fail()),
            }
        }
        Err(self.fail())
    }

    fn receive_in_time(
        &mut self,
        wait: Duration,
        buffer: &mut [u8; 64],
    ) -> Result<Option<usize>, PortFault>
        ensures length { IfOk result (λ got. IfSome got (λ n. n ≤ 64)) }
        ensures came { IfOk result (λ got. IfSome got (λ n. Passed (udp_port_facts self.old) (udp_port_facts self.new) (Came (take n buffer.new) ∷ []))) }
        ensures quiet { result ≡ Ok None → Passed (udp_port_facts self.old) (udp_port_facts self.new) (Quiet (as_nanos wait) ∷ []) }
        ensures missed { OnErr result (Passed (udp_port_facts self.old) (udp_port_facts self.new) (Missed ∷ [])) }
        ensures cause { OnErr result (Risen (udp_port_facts self.old).faults (udp_port_facts self.new).faults) }
        ensures hears { IfOk result (HearsOrNothing (udp_facts S.calls self.old) (udp_facts S.calls self.new) buffer.new) }
        ensures deaf { OnErr result (HearsNothing (udp_facts S.calls self.old) (udp_facts S.calls self.new)) }
    {
        for _ in 0..u64::MAX {
            match self.receive_in_shared(wait, buffer) {
                Ok(Some(length)) => return Ok(Some(length)),
                Ok(None) => {
                    self.shared = None;
                    return Ok(None);
                }
                Err(error) if is_interrupted(&error) => {}
                Err(_) => return Err(self.fail()),
            }
        }
        Err(self.fail())
    }

    fn send(&mut self, bytes: &[u8]) -> Result<(), PortFault>
        ensures handed { Passed (udp_port_facts self.old) (udp_port_facts self.new) (to_each (udp_port_facts self.old).addresses bytes.now) }
        ensures cause { OnErr result (Risen (udp_port_facts self.old).faults (udp_port_facts self.new).faults) }
        ensures sends { Sends (udp_facts S.calls self.old) (udp_facts S.calls self.new) bytes.now }
    {
        self.shared = None;
        let mut sent = Ok(());
        for place in 0..self.to.len() {
            sent = self.send_one(place, bytes).and(sent);
        }
        sent
    }

    fn failures(&self) -> u64 {
        self.failures
    }
}
