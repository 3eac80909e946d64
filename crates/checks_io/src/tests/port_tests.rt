//! A port in memory, and ports of the system.

use crate::tests::comparing::{check_bytes, check_same, push_bytes};
use crate::tests::no_stores::NoStores;
use std::alloc::Global;
use std::fs::{self, File};
use std::io;
use std::io::{Sink, sink};
use std::net::{IpAddr, Ipv4Addr, Ipv6Addr, Net, SocketAddr, UdpSocket};
use std::process::Abort;
use std::rt::Files;
use std::time::{Clock, Duration, Instant};
use system_fakes::{Arrival, MadeSocketCall, MemoryPort, MemorySocket, Passage, Turn};
use system_io::{BindFault, Host, LockFault, Port, Recipient, SystemHost, UdpPort, Unrecorded};

const DATAGRAMS: [&[u8]; 3] = [b"a", b"b", b"c"];

/// The second comes first, and twice; then nothing comes; then a receive fails; then the first comes, and the third is lost.
const TURNS: [Turn; 5] = [
    Turn::Comes(1),
    Turn::Comes(1),
    Turn::Quiet,
    Turn::Fails,
    Turn::Comes(0),
];

/// Waits for a datagram, but no longer than a hundredth of a second.
fn receive<P: Port>(port: &mut P) {
    let _received = port.receive_in_time(Duration::from_millis(10), &mut [0; 64]);
}

/// What passed: the datagram that came, a sign where none did, and the address and the datagram for one that was given out.
fn push_passage(rt: &impl Abort, text: &mut Vec<u8>, passage: &Passage) {
    match passage {
        Passage::Came(bytes) => push_bytes(rt, text, bytes),
        Passage::Quiet(_) => push_bytes(rt, text, b"?"),
        Passage::Missed => push_bytes(rt, text, b"!"),
        Passage::Handed { to, bytes } => {
            push_bytes(rt, text, if *to == 0 { b"0" } else { b"1" });
            push_bytes(rt, text, bytes);
        }
    }
}

/// All that passed at a port.
fn check_passed(rt: &impl Abort, alloc: Global, port: &MemoryPort<'_>, wanted: &[u8]) {
    let mut text = Vec::new(alloc);
    for passage in port.passages().expect(rt, "memory") {
        push_passage(rt, &mut text, passage);
    }
    check_bytes(rt, &text, wanted, "what passed");
}

#[test]
fn loses_repeats_and_reorders(rt: HostRuntime) {
    let mut port = MemoryPort::new(rt.alloc(), 2, &DATAGRAMS, &TURNS, None);
    for _ in 0..6 {
        receive(&mut port);
    }
    check_same(&rt, port.send(b"d").is_ok(), true, "a send");
    check_passed(&rt, rt.alloc(), &port, b"bb?!a!0d1d");
    check_same(&rt, port.failures(), 2, "failures");
}

/// A socket of the loopback.
fn bound<R: Net + Abort>(rt: &R) -> UdpSocket {
    UdpSocket::bind(rt, "127.0.0.1:0").expect(rt, "a socket")
}

/// The address of a socket.
fn text_at(rt: &impl Abort, alloc: Global, socket: &UdpSocket) -> String {
    let address = socket.local_addr().expect(rt, "an address");
    format!(in alloc; "{address}").expect(rt, "memory")
}

/// That no port is bound to an address.
fn expect_unbound<R, W>(
    rt: &impl Abort,
    host: &SystemHost<'_, R, W, NoStores>,
    history: &mut Unrecorded,
    alloc: Global,
    address: &str,
)
where
    R: Files<File = File> + Net + Clock + AllocGlobal,
    W: io::Write + Copy + Drop,
{
    let port = host.bind(alloc, history, address, &[]);
    check_same(rt, matches!(port, Err(BindFault::Unbound)), true, address);
}

/// An address that is taken, and texts that are none.
#[test]
fn binds_no_taken_or_bad_address(rt: HostRuntime) {
    let socket = bound(&rt);
    let (host, mut history) = SystemHost::new(&rt, rt.stderr(), &NoStores);
    let taken = text_at(&rt, rt.alloc(), &socket);
    for address in [taken.as_str(), "127.0.0.1", "127.0.0.1:65536"] {
        expect_unbound(&rt, &host, &mut history, rt.alloc(), address);
    }
}

/// A port of the loopback that sends to these.
fn port_to<'a, R: Net + Clock + AllocGlobal + Abort>(
    rt: &'a R,
    to: &[&str],
) -> UdpPort<'a, R, UdpSocket, Sink> {
    UdpPort::bind(rt, rt.alloc(), sink(), "127.0.0.1:0", to).expect(rt, "a port")
}

/// A port that sends to an address that is none, and then to a socket's.
fn port_to_two<'a, R: Net + Clock + AllocGlobal + Abort>(
    rt: &'a R,
    socket: &UdpSocket,
) -> UdpPort<'a, R, UdpSocket, Sink> {
    port_to(
        rt,
        &["127.0.0.1:65536", text_at(rt, rt.alloc(), socket).as_str()],
    )
}

/// A send that fails keeps the others from nothing.
#[test]
fn sends_to_the_others_too(rt: HostRuntime) {
    let client = bound(&rt);
    let mut port = port_to_two(&rt, &client);
    check_same(&rt, port.send(b"x").is_err(), true, "a send");
    check_same(&rt, port.failures(), 1, "failures");
    let received = client.recv_from(&mut [0; 64]).expect(&rt, "a datagram");
    check_same(&rt, received.0, 1, "its length");
}

/// Whether nothing came in time.
fn is_quiet<P: Port>(port: &mut P) -> bool {
    matches!(
        port.receive_in_time(Duration::from_millis(10), &mut [0; 64]),
        Ok(None)
    )
}

#[test]
fn waits_no_longer_than_it_should(rt: HostRuntime) {
    let mut port = port_to(&rt, &[]);
    check_same(&rt, is_quiet(&mut port), true, "nothing");
    check_same(&rt, port.failures(), 0, "failures");
}

/// How long the tests below wait.
fn some_time() -> Duration {
    Duration::from_millis(40)
}

/// The time.
fn now<R: Clock + Abort>(rt: &R) -> Instant {
    Instant::now(rt).expect(rt, "a clock")
}

/// That a wait has passed, as precisely as the system counts it.
fn check_waited<R: Clock + Abort>(rt: &R, began: Instant, row: &str) {
    let waited = now(rt).duration_since(began).saturating_mul(2) >= some_time();
    check_same(rt, waited, true, row);
}

/// A silence comes when the wait is over, and no sooner.
#[test]
fn waits_as_long_as_it_should(rt: HostRuntime) {
    let mut port = port_to(&rt, &[]);
    let began = now(&rt);
    let _nothing = port.receive_in_time(some_time(), &mut [0; 64]);
    check_waited(&rt, began, "a wait");
}

/// Sends a datagram to a port.
fn send_from<R: Net + Clock + AllocGlobal + Abort>(
    rt: &R,
    socket: &UdpSocket,
    port: &UdpPort<'_, R, UdpSocket, Sink>,
) {
    let own = port.own_address().expect(rt, "an address");
    socket.send_to(b"x", own).expect(rt, "a send");
}

/// A receive sets how long its socket waits, also where a datagram has come already.
#[test]
fn sets_how_long_its_socket_waits(rt: HostRuntime) {
    let client = bound(&rt);
    let mut port = port_to(&rt, &[]);
    send_from(&rt, &client, &port);
    let got = port.receive_in_time(some_time(), &mut [0; 64]);
    check_same(&rt, matches!(got, Ok(Some(1))), true, "a datagram");
    let wait = port.socket().read_timeout().expect(&rt, "a socket");
    let is_set = matches!(wait, Some(wait) if wait <= some_time().saturating_mul(2));
    check_same(&rt, is_set, true, "how long its socket waits");
}

/// After a receive that waits for nothing a send waits for room: its socket blocks again.
#[test]
fn a_send_waits_for_room(rt: HostRuntime) {
    let client = bound(&rt);
    let to = text_at(&rt, rt.alloc(), &client);
    let mut port = port_to(&rt, &[to.as_str()]);
    let got = port.receive_in_time(Duration::ZERO, &mut [0; 64]);
    check_same(&rt, matches!(got, Ok(None)), true, "nothing");
    check_same(&rt, port.send(b"x").is_ok(), true, "a send");
    port.socket()
        .set_read_timeout(Some(some_time()))
        .expect(&rt, "a socket");
    let began = now(&rt);
    let _nothing = port.socket().recv_from(&mut [0; 64]).is_ok();
    check_waited(&rt, began, "its socket blocks");
}

/// A port listens where it was bound, and nowhere else.
#[test]
fn binds_where_it_is_told(rt: HostRuntime) {
    let free = text_at(&rt, rt.alloc(), &bound(&rt));
    let port = UdpPort::bind(&rt, rt.alloc(), sink(), free.as_str(), &[]).expect(&rt, "a port");
    let own = port.own_address().expect(&rt, "an address");
    let text = format!(in rt.alloc(); "{own}").expect(&rt, "memory");
    check_same(&rt, text.as_str(), free.as_str(), "where it listens");
}

/// An address of the loopback, by its port.
fn at(port: u16) -> SocketAddr {
    SocketAddr::new(IpAddr::V4(Ipv4Addr::new(127, 0, 0, 1)), port)
}

/// A call at a socket: the last digit of a port, and the bytes.
fn push_call(rt: &impl Abort, text: &mut Vec<u8>, call: &MadeSocketCall) {
    match call {
        MadeSocketCall::Arrived { from, bytes } => push_at(rt, text, b"<", *from, bytes),
        MadeSocketCall::NoneCame => push_bytes(rt, text, b"?"),
        MadeSocketCall::Sent { to, bytes } => push_at(rt, text, b">", *to, bytes),
    }
}

/// A sign, the last digit of a port, and bytes.
fn push_at(rt: &impl Abort, text: &mut Vec<u8>, sign: &[u8], at: SocketAddr, bytes: &[u8]) {
    push_bytes(rt, text, sign);
    push_bytes(rt, text, &[b'0' + (at.port() % 10) as u8]);
    push_bytes(rt, text, bytes);
}

/// Two datagrams of two senders; a signal comes between.
fn two_senders() -> [Arrival<'static>; 3] {
    [
        Arrival::Comes(at(7001), b"a"),
        Arrival::Fails(io::ErrorKind::Interrupted),
        Arrival::Comes(at(7002), b"b"),
    ]
}

/// Answers to nobody, to the first sender and to the second one; the third send fails.
fn answer_twice<P: Port>(port: &mut P) {
    let _nobody = port.send(b"x");
    let _a = port.receive(&mut [0; 64]);
    let _first = port.send(b"y");
    let _b = port.receive(&mut [0; 64]);
    let _second = port.send(b"z");
}

/// Each answer goes to whoever sent the datagram before it, and to the other address; a send that fails, and one that works again, are
/// told.
#[test]
fn answers_go_to_the_sender(rt: HostRuntime) {
    let arrivals = two_senders();
    let socket = MemorySocket::new(rt.alloc(), None, &arrivals, Some(0));
    let mut notes = Vec::new(rt.alloc());
    let to = ["127.0.0.1:7003", "sender", "127.0.0.1:nobody"];
    let mut port = UdpPort::over(&rt, rt.alloc(), socket, &mut notes, "here", &to).expect(
        &rt, "memory",
    );
    answer_twice(&mut port);
    let mut text = Vec::new(rt.alloc());
    for call in port.socket().made().expect(&rt, "memory") {
        push_call(&rt, &mut text, call);
    }
    check_bytes(&rt, &text, b">3x<1a>3y>1y?<2b>3z>2z", "the calls");
    check_same(&rt, port.failures(), 4, "failures");
    drop(port);
    check_bytes(
        &rt,
        &notes,
        b"to 127.0.0.1:nobody unknown\nlost 127.0.0.1:7003\nback 127.0.0.1:7003\n",
        "the notes",
    );
}

/// A folder, and what would be the lock beside it.
const FOLDER: &str = "/tmp/checks-test-lock";

const BESIDE: &str = "/tmp/checks-test-lock.lock";

/// No lock is made beside a folder.
#[test]
fn locks_nothing_beside_a_folder(rt: HostRuntime) {
    let _left = fs::remove_dir_all(&rt, FOLDER).is_ok();
    fs::create_dir(&rt, FOLDER).expect(&rt, "a folder");
    let (host, mut history) = SystemHost::new(&rt, sink(), &NoStores);
    let lock = host.lock(rt.alloc(), &mut history, BESIDE);
    check_same(&rt, matches!(lock, Err(LockFault::Failed)), true, BESIDE);
    let stands = fs::exists(&rt, BESIDE).expect(&rt, "a folder");
    check_same(&rt, stands, false, BESIDE);
    fs::remove_dir_all(&rt, FOLDER).expect(&rt, "a folder");
}

/// A host name has an address of the kind of the port's own, or none.
#[test]
fn sends_to_an_address_of_its_kind(rt: HostRuntime) {
    let own = [at(0), SocketAddr::new(IpAddr::V6(Ipv6Addr::LOCALHOST), 0)];
    for own in own {
        let is_so = match Recipient::of(&rt, "localhost:7001", Some(own)) {
            Recipient::At(address) => address.is_ipv4() == own.is_ipv4(),
            Recipient::Unknown => own.is_ipv6(),
            Recipient::Sender => false,
        };
        check_same(&rt, is_so, true, "a kind");
    }
}

/// A lock is given once at a time, and again where it was let go.
#[test]
fn locks_once_at_a_time(rt: HostRuntime) {
    let (host, mut history) = SystemHost::new(&rt, rt.stderr(), &NoStores);
    let first = host.lock(rt.alloc(), &mut history, "kept.lock");
    check_same(&rt, first.is_ok(), true, "a lock");
    let second = host.lock(rt.alloc(), &mut history, "kept.lock");
    check_same(&rt, matches!(second, Err(LockFault::Held)), true, "held");
    drop(first);
    check_same(
        &rt,
        host.lock(rt.alloc(), &mut history, "kept.lock").is_ok(),
        true,
        "again",
    );
    check_same(
        &rt,
        host.lock(rt.alloc(), &mut history, "no/kept.lock").is_err(),
        true,
        "no folder",
    );
}
