//! The connections of one listener.

ghost use Rattle.std.specs.Prelude.{◌≡◌, ◌≢◌, ◌+◌, ◌*◌, ◌≤◌, ℕ, [], IfOk, IfSome, IsFalse, IsTrue, None, OnErr, OnOk, Some, false};
ghost use Rattle.std.specs.Duration.{as_nanos};
ghost use Rattle.std.specs.VecDeque.{deque_items};
ghost use Rattle.slab.specs.Slab.{ContainsKey, SameValues, Updates, get, slab_len};
ghost use Rattle.http_server.specs.Connection.{config_of, history};
ghost use Rattle.http_server.specs.History.{Rests, new_history};
ghost use Rattle.http_loop.specs.Late.{AreAnew, ClosesLate, ComesFor, IsEarlier, IsLonger, IsNotAfter, WaitsLongest, is_late as late, unless_late, waits_since};
ghost use Rattle.http_loop.specs.Servers.{BeginsServed, ClosesAll, IsInOrder, IsSwept, KeepsLimits, KeepsOrder, ServesCalls, ServesStill, count_of, limits_of, listener_of, queue_of, swept_at};
ghost use Rattle.http_loop.specs.Serving.{AllStayServed, HaveSameEnds, ServedBy, StayServed};
ghost use Rattle.http_loop.specs.Times.{LingerFrom, has_passed as passed};
ghost use Rattle.http_loop.specs.Turns.{AreOthersQueued, AreQueued, GrowsBehind, MovesUp, StayQueued, is_going, may_go_on};

use crate::listener::Listener;
use crate::peer::{Fate, Peer};
use crate::times::has_passed;
use http_server::{Config, Connection, Service, State};
use slab::Slab;
use std::alloc::Global;
use std::collections::VecDeque;
use std::hash::RandomState;
use std::io::{Read, Write};
use std::time::{Clock, Duration, Instant};
use std::{io, mem};

/// How many calls of the system a connection has in a turn, at most.
const TURN: usize = 32;

/// How many keys are reported as ready at once without more memory: as many as the system's sockets report.
const READY: usize = 1024;

/// How many connections come in a round, at most.
const COMING: usize = 64;

/// For how many seconds a stream lingers that was closed, at most.
const LINGER: u64 = 2;

/// Limits of a server.
#[derive(Clone, Copy)]
pub struct Limits {
    /// Of each connection.
    pub config: Config,
    /// How many connections there are at once, at most. One more takes the place of the one that has waited longest.
    pub connections: usize,
    /// How long a connection may wait for the first byte of a request, and then for its last one, its answer and for that to be taken.
    pub exchange: Duration,
    /// How often connections are looked through for those that have taken longer, and what was closed for what lingers too long. Where a
    /// round took more than twice as long, as one does in which the process was stopped, that time is counted for none of them.
    pub sweep: Duration,
}

/// What each connection begins with.
#[derive(Clone, Copy)]
struct Beginning {
    alloc: Global,
    keys: RandomState,
    limits: Limits,
    now: Instant,
}

/// The connections of one listener.
#[derive(Drop)]
pub struct Server<'r, C: Clock, L: Listener + Drop> {
    clock: &'r C,
    alloc: Global,
    keys: RandomState,
    limits: Limits,
    listener: L,
    peers: Slab<Peer<L::Reader, L::Writer>>,
    /// The keys that the listener has reported as ready.
    ready: Vec<usize>,
    /// Those of connections that might have gone on, the one that has waited longest first, each once.
    going: VecDeque<usize>,
    now: Instant,
    swept: Instant,
}

/// Closes the connection under a key, if there is one, with its stream.
fn close_one<L: Listener>(
    listener: &mut L,
    peers: &mut Slab<Peer<L::Reader, L::Writer>>,
    key: usize,
    now: Instant,
)
    ensures served { AllStayServed L.streams L.Reader.remaining L.Writer.contents listener.old peers.old listener.new peers.new }
    ensures lingering { LingerFrom now (L.lingering listener.old) (L.lingering listener.new) }
    ensures gone { Updates peers.old peers.new key None }
    ensures fewer { slab_len peers.new ≤ slab_len peers.old }
    ensures one { ContainsKey peers.old key → slab_len peers.new + 1 ≡ slab_len peers.old }
    ensures capacity { peers.new.capacity ≡ peers.old.capacity }
{
    if let Some(peer) = peers.try_remove(key) {
        let (reader, writer) = peer.into_ends();
        listener.close(key, reader, writer, now);
    }
}

/// A peer that has just come.
fn new_peer<R: Read + Drop, W: Write + Drop>(
    beginning: Beginning,
    reader: R,
    writer: W,
) -> Peer<R, W>
    ensures reader { result.reader ≡ reader }
    ensures writer { result.writer ≡ writer }
    ensures config { config_of result.connection ≡ beginning.limits.config }
    ensures fresh { history result.connection ≡ new_history }
    ensures waits { result.goes_on ≡ false }
    ensures since { result.since ≡ beginning.now }
    ensures idle { IsTrue result.is_idle }
{
    Peer {
        reader,
        writer,
        connection: Connection::new(beginning.alloc, beginning.keys, beginning.limits.config),
        since: beginning.now,
        is_idle: true,
        goes_on: false,
    }
}

/// Since when the connection under a key has waited, for a request or in one. None where there is none, or it waits for a turn.
fn waiting_since<R: Drop, W: Drop>(peers: &Slab<Peer<R, W>>, key: usize) -> Option<Instant>
    ensures { result ≡ waits_since (get peers.now key) }
{
    match peers.get(key) {
        Some(peer) if !peer.goes_on => Some(peer.since),
        _ => None,
    }
}

/// Whether one has waited longer than another, each by since when.
fn waits_longer(one: Option<Instant>, other: Option<Instant>) -> bool
    ensures longer { IsTrue result → IsEarlier one other }
    ensures other { IsFalse result → IsNotAfter other one }
{
    match (one, other) {
        (Some(one), Some(other)) => has_passed(one, other, Duration::ZERO),
        (Some(_), None) => true,
        (None, _) => false,
    }
}

/// Of two keys that of the connection that has waited longer, or the first one, each with since when it has.
fn longer_waiting(
    one: (usize, Option<Instant>),
    other: (usize, Option<Instant>),
) -> (usize, Option<Instant>)
    ensures { IsLonger one other result }
{
    if waits_longer(other.1, one.1) {
        other
    } else {
        one
    }
}

/// The connection that has waited longest, or this one where each of them waits for a turn.
fn longest_waiting<R: Drop, W: Drop>(peers: &Slab<Peer<R, W>>, newest: usize) -> usize
    ensures contained { ContainsKey peers.now newest → ContainsKey peers.now result }
    ensures waits { IsFalse (is_going (get peers.now newest)) → IsFalse (is_going (get peers.now result)) }
    ensures longest { WaitsLongest peers.now result }
{
    let mut longest = (newest, None);
    for key in 0..peers.capacity() {
        longest = longer_waiting(longest, (key, waiting_since(peers, key)));
    }
    longest.0
}

/// Accepts one stream that has come, for a connection of its own. One more than there may be takes the place of the one that has waited
/// longest.
fn accept_one<L: Listener>(
    beginning: Beginning,
    listener: &mut L,
    peers: &mut Slab<Peer<L::Reader, L::Writer>>,
) -> io::Result<()>
    ensures served { StayServed L.streams L.Reader.remaining L.Writer.contents beginning.limits.config listener.old peers.old listener.new peers.new }
    ensures lingering { LingerFrom beginning.now (L.lingering listener.old) (L.lingering listener.new) }
    ensures queued { StayQueued peers.old peers.new }
    ensures few { slab_len peers.old ≤ beginning.limits.connections → slab_len peers.new ≤ beginning.limits.connections }
    ensures ok { OnOk result (ComesFor peers.old peers.new) }
    ensures err { OnErr result (SameValues peers.old peers.new) }
{
    peers.reserve(1)?;
    let key = peers.vacant_key();
    let (reader, writer) = listener.accept(key)?;
    peers.insert_reserved(new_peer(beginning, reader, writer));
    if peers.len() > beginning.limits.connections {
        let longest = longest_waiting(peers, key);
        close_one(listener, peers, longest, beginning.now);
    }
    Ok(())
}

/// Accepts streams that have come, at most 64. One that can't be accepted now, as where descriptors are missing, is tried again in the
/// next round.
fn accept_all<L: Listener>(
    beginning: Beginning,
    listener: &mut L,
    peers: &mut Slab<Peer<L::Reader, L::Writer>>,
)
    ensures served { StayServed L.streams L.Reader.remaining L.Writer.contents beginning.limits.config listener.old peers.old listener.new peers.new }
    ensures lingering { LingerFrom beginning.now (L.lingering listener.old) (L.lingering listener.new) }
    ensures queued { StayQueued peers.old peers.new }
    ensures few { slab_len peers.old ≤ beginning.limits.connections → slab_len peers.new ≤ beginning.limits.connections }
{
    for _ in 0..COMING {
        if accept_one(beginning, listener, peers).is_err() {
            return;
        }
    }
}

/// Whether the connection under a key waits for a turn among those that go on.
fn goes_on<R: Drop, W: Drop>(peers: &Slab<Peer<R, W>>, key: usize) -> bool
    ensures { result ≡ is_going (get peers.now key) }
{
    match peers.get(key) {
        Some(peer) => peer.goes_on,
        None => false,
    }
}

/// A connection waits for a turn behind those that go on, or is closed where memory for that is refused.
fn queue_up<L: Listener>(
    listener: &mut L,
    peers: &mut Slab<Peer<L::Reader, L::Writer>>,
    going: &mut VecDeque<usize>,
    key: usize,
    now: Instant,
)
    ensures served { AllStayServed L.streams L.Reader.remaining L.Writer.contents listener.old peers.old listener.new peers.new }
    ensures lingering { LingerFrom now (L.lingering listener.old) (L.lingering listener.new) }
    ensures kept { IfSome (get peers.new key) (λ peer. get peers.old key ≡ Some peer) }
    ensures queued { AreOthersQueued key peers.old (deque_items going.old) → IsTrue (is_going (get peers.old key))
        → AreQueued peers.new (deque_items going.new) }
    ensures behind { GrowsBehind (deque_items going.old) (deque_items going.new) }
    ensures fewer { slab_len peers.new ≤ slab_len peers.old }
{
    match going.push_back(key) {
        Ok(()) => {}
        Err(_) => close_one(listener, peers, key, now),
    }
}

/// One turn of the connection under a key, if there is one.
fn take_turn_of<L: Listener, S: Service>(
    listener: &L,
    peers: &mut Slab<Peer<L::Reader, L::Writer>>,
    service: &mut S,
    key: usize,
    now: Instant,
) -> Fate
    ensures served { ServedBy L.streams L.Reader.remaining L.Writer.contents S.answers service.old service.new listener.now peers.old listener.now peers.new }
    ensures aborted { IfSome (get peers.new key) (λ peer. (history peer.connection).state ≡ State.Aborted → result ≡ Fate.Ends) }
    ensures rests { IfSome (get peers.new key) (λ peer. result ≡ Fate.Waits → Rests (config_of peer.connection) (history peer.connection)) }
    ensures goes_on { is_going (get peers.new key) ≡ may_go_on result }
    ensures others { Updates peers.old peers.new key (get peers.new key) }
    ensures same { slab_len peers.new ≡ slab_len peers.old }
{
    match peers.get_mut(key) {
        Some(peer) => peer.take_turn(service, TURN, now),
        None => Fate::Waits,
    }
}

/// One turn of a connection. One that ends is closed, and so is one to which memory for an answer is refused.
fn give_turn<L: Listener, S: Service>(
    listener: &mut L,
    peers: &mut Slab<Peer<L::Reader, L::Writer>>,
    going: &mut VecDeque<usize>,
    service: &mut S,
    key: usize,
    now: Instant,
)
    ensures served { ServedBy L.streams L.Reader.remaining L.Writer.contents S.answers service.old service.new listener.old peers.old listener.new peers.new }
    ensures lingering { LingerFrom now (L.lingering listener.old) (L.lingering listener.new) }
    ensures aborted { IfSome (get peers.new key) (λ peer. (history peer.connection).state ≢ State.Aborted) }
    ensures queued { AreOthersQueued key peers.old (deque_items going.old) → AreQueued peers.new (deque_items going.new) }
    ensures behind { GrowsBehind (deque_items going.old) (deque_items going.new) }
    ensures fewer { slab_len peers.new ≤ slab_len peers.old }
{
    match take_turn_of(listener, peers, service, key, now) {
        Fate::Waits => {}
        Fate::GoesOn => queue_up(listener, peers, going, key, now),
        Fate::Ends => close_one(listener, peers, key, now),
    }
}

/// Whether the connection under a key has taken too long. One that waits for a turn hasn't.
fn is_late<R: Drop, W: Drop>(
    peers: &Slab<Peer<R, W>>,
    key: usize,
    now: Instant,
    exchange: Duration,
) -> bool
    ensures { result ≡ late now exchange (get peers.now key) }
{
    match peers.get(key) {
        Some(peer) => !peer.goes_on && has_passed(peer.since, now, exchange),
        None => false,
    }
}

/// Closes the connection under a key where it has taken too long.
fn close_if_late<L: Listener>(
    listener: &mut L,
    peers: &mut Slab<Peer<L::Reader, L::Writer>>,
    key: usize,
    now: Instant,
    exchange: Duration,
)
    ensures served { AllStayServed L.streams L.Reader.remaining L.Writer.contents listener.old peers.old listener.new peers.new }
    ensures lingering { LingerFrom now (L.lingering listener.old) (L.lingering listener.new) }
    ensures late { Updates peers.old peers.new key (unless_late now exchange (get peers.old key)) }
    ensures fewer { slab_len peers.new ≤ slab_len peers.old }
    ensures capacity { peers.new.capacity ≡ peers.old.capacity }
{
    if is_late(peers, key, now, exchange) {
        close_one(listener, peers, key, now);
    }
}

/// Closes the connections that have taken too long, but for those that wait for a turn.
fn close_late<L: Listener>(
    listener: &mut L,
    peers: &mut Slab<Peer<L::Reader, L::Writer>>,
    now: Instant,
    exchange: Duration,
)
    ensures served { AllStayServed L.streams L.Reader.remaining L.Writer.contents listener.old peers.old listener.new peers.new }
    ensures lingering { LingerFrom now (L.lingering listener.old) (L.lingering listener.new) }
    ensures late { ClosesLate now exchange peers.old peers.new }
    ensures fewer { slab_len peers.new ≤ slab_len peers.old }
{
    for key in 0..peers.capacity() {
        close_if_late(listener, peers, key, now, exchange);
    }
}

/// Gives the connection under a key that has become ready a turn, unless it waits for one anyway.
fn give_ready_turn<L: Listener, S: Service>(
    listener: &mut L,
    peers: &mut Slab<Peer<L::Reader, L::Writer>>,
    going: &mut VecDeque<usize>,
    service: &mut S,
    key: usize,
    now: Instant,
)
    ensures served { ServedBy L.streams L.Reader.remaining L.Writer.contents S.answers service.old service.new listener.old peers.old listener.new peers.new }
    ensures lingering { LingerFrom now (L.lingering listener.old) (L.lingering listener.new) }
    ensures queued { AreQueued peers.old (deque_items going.old) → AreQueued peers.new (deque_items going.new) }
    ensures behind { GrowsBehind (deque_items going.old) (deque_items going.new) }
    ensures fewer { slab_len peers.new ≤ slab_len peers.old }
{
    if goes_on(peers, key) {
        return;
    }
    give_turn(listener, peers, going, service, key, now);
}

/// Gives each connection that has become ready a turn, but for those that wait for one anyway.
fn give_turns<L: Listener, S: Service>(
    listener: &mut L,
    peers: &mut Slab<Peer<L::Reader, L::Writer>>,
    ready: &[usize],
    going: &mut VecDeque<usize>,
    service: &mut S,
    now: Instant,
)
    ensures served { ServedBy L.streams L.Reader.remaining L.Writer.contents S.answers service.old service.new listener.old peers.old listener.new peers.new }
    ensures lingering { LingerFrom now (L.lingering listener.old) (L.lingering listener.new) }
    ensures queued { AreQueued peers.old (deque_items going.old) → AreQueued peers.new (deque_items going.new) }
    ensures behind { GrowsBehind (deque_items going.old) (deque_items going.new) }
    ensures fewer { slab_len peers.new ≤ slab_len peers.old }
{
    for key in ready {
        give_ready_turn(listener, peers, going, service, *key, now);
    }
}

/// Gives the connection a turn that has waited longest of those that go on, if there is one.
fn give_next<L: Listener, S: Service>(
    listener: &mut L,
    peers: &mut Slab<Peer<L::Reader, L::Writer>>,
    going: &mut VecDeque<usize>,
    service: &mut S,
    now: Instant,
)
    ensures served { ServedBy L.streams L.Reader.remaining L.Writer.contents S.answers service.old service.new listener.old peers.old listener.new peers.new }
    ensures lingering { LingerFrom now (L.lingering listener.old) (L.lingering listener.new) }
    ensures queued { AreQueued peers.old (deque_items going.old) → AreQueued peers.new (deque_items going.new) }
    ensures up { MovesUp (deque_items going.old) (deque_items going.new) }
    ensures fewer { slab_len peers.new ≤ slab_len peers.old }
{
    if let Some(key) = going.pop_front() {
        give_turn(listener, peers, going, service, key, now);
    }
}

/// Counts the time of the connection under a key from now on, if there is one.
fn count_one_anew<R: Drop, W: Drop>(peers: &mut Slab<Peer<R, W>>, key: usize, now: Instant)
    ensures same { HaveSameEnds peers.old peers.new }
    ensures anew { IfSome (get peers.new key) (λ peer. peer.since ≡ now) }
    ensures others { Updates peers.old peers.new key (get peers.new key) }
{
    if let Some(peer) = peers.get_mut(key) {
        peer.since = now;
    }
}

/// Counts the time of each connection from now on.
fn count_anew<R: Drop, W: Drop>(peers: &mut Slab<Peer<R, W>>, now: Instant)
    ensures same { HaveSameEnds peers.old peers.new }
    ensures anew { AreAnew now peers.new }
{
    for key in 0..peers.capacity() {
        count_one_anew(peers, key, now);
    }
}

/// Closes all connections.
fn close_each<L: Listener>(
    listener: &mut L,
    peers: &mut Slab<Peer<L::Reader, L::Writer>>,
    now: Instant,
)
    ensures served { AllStayServed L.streams L.Reader.remaining L.Writer.contents listener.old peers.old listener.new peers.new }
    ensures lingering { LingerFrom now (L.lingering listener.old) (L.lingering listener.new) }
    ensures gone { (key : ℕ) → get peers.new key ≡ None }
{
    for key in 0..peers.capacity() {
        close_one(listener, peers, key, now);
    }
}

impl<'r, C: Clock, L: Listener + Drop> Server<'r, C, L> {
    /// A server over a listener, none of whose streams is open. The error comes where there is no clock, or memory is refused.
    pub fn new(
        clock: &'r C,
        alloc: Global,
        keys: RandomState,
        limits: Limits,
        listener: L,
    ) -> io::Result<Server<'r, C, L>>
        ensures served { IfOk result (λ server. BeginsServed L.streams L.Reader.remaining L.Writer.contents listener server) }
        ensures listener { IfOk result (λ server. listener_of server ≡ listener) }
        ensures order { IfOk result (λ server. L.lingering listener ≡ [] → IsInOrder L.lingering server) }
        ensures limits { IfOk result (λ server. limits_of server ≡ limits) }
        ensures none { IfOk result (λ server. count_of server ≡ 0) }
    {
        let now = Instant::now(clock)?;
        Ok(Server {
            clock,
            alloc,
            keys,
            limits,
            listener,
            peers: Slab::new(alloc),
            ready: Vec::with_capacity(alloc, READY)?,
            going: VecDeque::new(alloc),
            now,
            swept: now,
        })
    }

    /// The listener.
    pub fn listener(&self) -> &L
        ensures { result.now ≡ listener_of self.entry.now }
    {
        &self.listener
    }

    /// Closes the connections that have taken too long, and lets go of what has lingered too long, where it is time for that.
    fn sweep(&mut self)
        ensures served { ServesStill L.streams L.Reader.remaining L.Writer.contents self.old self.new }
        ensures few { KeepsLimits self.old self.new }
        ensures order { KeepsOrder L.lingering self.old self.new }
        ensures swept { IsSwept self.new }
        ensures queue { queue_of self.new ≡ queue_of self.old }
    {
        if has_passed(self.swept, self.now, self.limits.sweep) {
            let (now, exchange) = (self.now, self.limits.exchange);
            self.swept = now;
            close_late(&mut self.listener, &mut self.peers, now, exchange);
            self.listener.let_go(now, Duration::from_secs(LINGER));
        }
    }

    /// Counts the time of each connection, and of each stream that lingers, from now on.
    fn count_all_anew(&mut self)
        ensures served { ServesStill L.streams L.Reader.remaining L.Writer.contents self.old self.new }
        ensures few { KeepsLimits self.old self.new }
        ensures order { AreQueued self.old.peers (queue_of self.old) → IsInOrder L.lingering self.new }
        ensures anew { AreAnew self.new.now self.new.peers }
        ensures time { (self.new.now ≡ self.old.now) × (limits_of self.new ≡ limits_of self.old) }
        ensures queue { queue_of self.new ≡ queue_of self.old }
    {
        count_anew(&mut self.peers, self.now);
        self.listener.count_anew(self.now);
        self.swept = self.now;
    }

    /// Takes the time. If the last round began long ago, the process may have been stopped, and so nobody could be answered: then the
    /// time of each connection is counted anew, and that of each stream that lingers. So it is where the clock has gone back.
    fn take_time(&mut self) -> io::Result<()>
        ensures anew { OnOk result (IsTrue (passed self.old.now self.new.now (2 * as_nanos (limits_of self.old).sweep))
            → AreAnew self.new.now self.new.peers) }
        ensures served { ServesStill L.streams L.Reader.remaining L.Writer.contents self.old self.new }
        ensures few { KeepsLimits self.old self.new }
        ensures order { KeepsOrder L.lingering self.old self.new }
        ensures queue { queue_of self.new ≡ queue_of self.old }
    {
        let before = self.now;
        self.now = Instant::now(self.clock)?;
        let longest = self.limits.sweep.saturating_mul(2);
        if has_passed(before, self.now, longest) || has_passed(self.now, before, Duration::ZERO) {
            self.count_all_anew();
        }
        Ok(())
    }

    /// Waits, and accepts the streams that have come.
    fn wait(&mut self) -> io::Result<()>
        ensures served { ServesStill L.streams L.Reader.remaining L.Writer.contents self.old self.new }
        ensures few { KeepsLimits self.old self.new }
        ensures order { KeepsOrder L.lingering self.old self.new }
        ensures queue { queue_of self.new ≡ queue_of self.old }
    {
        let time = if self.going.is_empty() {
            self.limits.sweep
        } else {
            Duration::ZERO
        };
        self.listener.wait(&mut self.ready, time)?;
        self.take_time()?;
        let beginning = Beginning {
            alloc: self.alloc,
            keys: self.keys,
            limits: self.limits,
            now: self.now,
        };
        accept_all(beginning, &mut self.listener, &mut self.peers);
        Ok(())
    }

    /// Waits until a stream comes or is ready, or for as long as `sweep` of the limits says. Then each connection that has become ready
    /// has a turn, and behind these one of those that might have gone on, the longest waiting; and those are closed that took too long.
    /// There are never more connections than the limits say. It takes no memory but for connections, and one to which memory is refused
    /// is closed; a listener may take some. The error comes where the system can't wait, or memory is refused.
    pub fn round<S: Service>(&mut self, service: &mut S) -> io::Result<()>
        ensures served { ServesCalls L.streams L.Reader.remaining L.Writer.contents S.answers service.old service.new self.old self.new }
        ensures few { KeepsLimits self.old self.new }
        ensures order { KeepsOrder L.lingering self.old self.new }
        ensures swept { OnOk result (IsSwept self.new) }
        ensures turns { OnOk result (MovesUp (queue_of self.old) (queue_of self.new)) }
    {
        self.wait()?;
        let ready = mem::replace(&mut self.ready, Vec::new(self.alloc));
        let (listener, peers) = (&mut self.listener, &mut self.peers);
        give_turns(listener, peers, &ready, &mut self.going, service, self.now);
        give_next(listener, peers, &mut self.going, service, self.now);
        self.ready = ready;
        self.ready.clear();
        self.sweep();
        Ok(())
    }

    /// Closes all connections.
    pub fn close(&mut self)
        ensures served { ServesStill L.streams L.Reader.remaining L.Writer.contents self.old self.new }
        ensures closed { ClosesAll L.streams L.Reader.remaining L.Writer.contents self.old self.new }
        ensures order { KeepsOrder L.lingering self.old self.new }
    {
        close_each(&mut self.listener, &mut self.peers, self.now);
        self.going.clear();
    }
}
