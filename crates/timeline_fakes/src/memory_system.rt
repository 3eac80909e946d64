//! The outside in memory, which records all that happens.

ghost use Rattle.std.specs.Prelude.{◌≡◌, ◌≤◌, None, Ok, map, IfErr, IfOk, IfSome, OnErr, OnOk};
ghost use Rattle.system_io.specs.Failures.{Risen};
ghost use Rattle.system_io.specs.Recipients.{address_named};
ghost use Rattle.system_io.specs.Records.{GivesBack, with_all};
ghost use Rattle.system_fakes.specs.MemoryInputs.{memory_line_facts};
ghost use Rattle.timeline.specs.Events.{Passes, done_by, has_line_feed, is_done, sent_to, sent_to_each};
ghost use Rattle.timeline.specs.Outsides.{AreNamed, HeardNothing, SendsToSame};
ghost use Rattle.timeline_fakes.specs.Memories.{events_in, has_in, lock_path, port_state, store_facts, store_path};

use crate::memory_file::{KeptStart, MemoryFile};
use crate::memory_port::{MemoryPort, Turn, Turns, address_of, fill};
use crate::memory_store::MemoryStore;
use crate::memory_timeline::{MemoryTimeline, Outlet};
use crate::recorded::{
    self, Recorded, came, committed, file_lines_opened, file_opened, file_read, file_sought,
    file_with_mode_read, folder_listed, input_read, line_taken, locked, noted, port_bound,
    record_sought, same_entries, sent, store_opened, wrote,
};
use std::alloc::{AllocError, Global};
use std::io;
use std::net::SocketAddr;
use std::time::Duration;
use system_fakes::{AtPath, MemoryDisk, MemoryInput, MemoryLines};
use system_io::{
    BindFault, Disk, Entry, FileWithMode, Input, Key, LineDisk, LineReader, LockFault, PortFault,
    PutFault, ReadFault, Recipient, StoreFault, WriteFault, begin, replace,
};
use timeline::{Stream, System};

/// Where a port can be bound.
#[derive(Clone, Copy)]
pub enum Binds<'a> {
    /// Nowhere.
    Nowhere,
    /// At any address, to send to any others.
    Anywhere,
    /// At the first of these addresses, to send to the second.
    At(&'a str, &'a str),
}

/// Folders and files, an input, what stands where something is to be kept, the own address of a port and what comes of its calls.
#[derive(Clone, Copy)]
pub struct MemorySystem<'a> {
    /// Folders and files that are read.
    pub disk: MemoryDisk<'a>,
    /// The input.
    pub input: MemoryInput<'a>,
    /// What stands where something is to be kept.
    pub kept: &'a [AtPath<'a, KeptStart<'a>>],
    /// What stands at any other path.
    pub elsewhere: KeptStart<'a>,
    /// Where a port can be bound.
    pub binds: Binds<'a>,
    /// The own address of a port.
    pub own: Option<SocketAddr>,
    /// What comes of its calls that receive, in order.
    pub turns: Turns<'a>,
}

/// A lock of a file.
#[derive(Drop)]
pub struct MemoryLock {
    pub(crate) path: Vec<u8>,
}

/// What stands where something is to be kept at a path, or else elsewhere.
fn kept_at<'a>(
    kept: &'a [AtPath<'a, KeptStart<'a>>],
    path: &str,
    elsewhere: KeptStart<'a>,
) -> KeptStart<'a> {
    for one in kept {
        if one.path == path {
            return one.holds;
        }
    }
    elsewhere
}

/// Whether a whole line has come.
fn had_come(lines: &MemoryLines<'_>) -> bool
    ensures { result ≡ has_line_feed (memory_line_facts lines.now).ahead }
{
    lines.has_line()
}

/// Records that a datagram is sent to a recipient, if it has an address.
fn keep_sent(
    timeline: &mut MemoryTimeline,
    sender: Option<SocketAddr>,
    who: Recipient,
    bytes: &[u8],
)
    ensures { Passes (events_in timeline.old) (events_in timeline.new) (sent_to (address_named sender who) bytes.now) }
{
    if let Some(address) = address_of(sender, who) {
        let made = sent(timeline.alloc(), address, bytes);
        timeline.keep(made);
    }
}

/// Records that a datagram is sent to each of these, in turn.
fn keep_sends(
    timeline: &mut MemoryTimeline,
    sender: Option<SocketAddr>,
    to: &[Recipient],
    bytes: &[u8],
)
    ensures { Passes (events_in timeline.old) (events_in timeline.new) (sent_to_each sender to.now bytes.now) }
{
    for who in to {
        keep_sent(timeline, sender, *who, bytes);
    }
}

/// That a call is done, or why not.
fn done<A, E: Copy>(got: &Result<A, E>) -> Result<(), E>
    ensures { result ≡ done_by got.now }
{
    match got {
        Ok(_) => Ok(()),
        Err(fault) => Err(*fault),
    }
}

/// Whether a call is done.
fn is_done<A, E>(got: &Result<A, E>) -> bool
    ensures { result ≡ is_done got.now }
{
    match got {
        Ok(_) => true,
        Err(_) => false,
    }
}

/// Receives in turn.
fn receive_in_turn<'a>(
    timeline: &mut MemoryTimeline,
    port: &mut MemoryPort<'a>,
    buffer: &mut [u8; 64],
) -> Result<Option<usize>, PortFault>
    ensures events { events_in timeline.new ≡ events_in timeline.old }
    ensures length { IfOk result (λ got. IfSome got (λ n. n ≤ 64)) }
    ensures same { SendsToSame (port_state port.old) (port_state port.new) }
    ensures quiet { result ≡ Ok None → HeardNothing (port_state port.old) (port_state port.new) }
    ensures missed { OnErr result (HeardNothing (port_state port.old) (port_state port.new)) }
    ensures cause { OnErr result (Risen (port_state port.old).faults (port_state port.new).faults) }
{
    if timeline.is_failing() {
        port.fail();
        return Err(PortFault::Failed);
    }
    match port.next() {
        Turn::Comes(from, datagram) => {
            port.sender = from;
            Ok(Some(fill(buffer, datagram)))
        }
        Turn::Quiet => Ok(None),
        Turn::Fails => {
            port.fail();
            Err(PortFault::Failed)
        }
    }
}

/// Receives in turn, without a time limit.
fn receive_next<'a>(
    timeline: &mut MemoryTimeline,
    port: &mut MemoryPort<'a>,
    buffer: &mut [u8; 64],
) -> Result<usize, PortFault>
    ensures events { events_in timeline.new ≡ events_in timeline.old }
    ensures length { IfOk result (λ n. n ≤ 64) }
    ensures same { SendsToSame (port_state port.old) (port_state port.new) }
    ensures missed { OnErr result (HeardNothing (port_state port.old) (port_state port.new)) }
    ensures cause { OnErr result (Risen (port_state port.old).faults (port_state port.new).faults) }
{
    match receive_in_turn(timeline, port, buffer) {
        Ok(Some(length)) => Ok(length),
        Ok(None) => {
            port.fail();
            Err(PortFault::Failed)
        }
        Err(fault) => Err(fault),
    }
}

/// Locks a file.
fn lock_at(
    timeline: &mut MemoryTimeline,
    alloc: Global,
    path: &str,
) -> Result<MemoryLock, LockFault>
    ensures events { events_in timeline.new ≡ events_in timeline.old }
    ensures at { IfOk result (λ lock. lock_path lock ≡ path.now) }
{
    if timeline.is_failing() {
        return Err(LockFault::Held);
    }
    match Vec::from_slice(alloc, path.as_bytes()) {
        Ok(path) => Ok(MemoryLock { path }),
        Err(_) => Err(LockFault::OutOfMemory),
    }
}

/// Opens a store.
fn store_at(
    timeline: &mut MemoryTimeline,
    alloc: Global,
    path: &str,
) -> Result<MemoryStore, StoreFault>
    ensures events { events_in timeline.new ≡ events_in timeline.old }
    ensures at { IfOk result (λ store. store_path store ≡ path.now) }
{
    if timeline.is_failing() {
        return Err(StoreFault::Unreadable);
    }
    match MemoryStore::new(alloc, path) {
        Ok(store) => Ok(store),
        Err(_) => Err(StoreFault::OutOfMemory),
    }
}

/// Puts a batch in a store. It counts as two calls: where the first fails, the store does, and where the second fails, memory is refused.
fn put_batch(
    timeline: &mut MemoryTimeline,
    store: &mut MemoryStore,
    entries: Vec<Entry>,
) -> Result<(), PutFault>
    ensures events { events_in timeline.new ≡ events_in timeline.old }
    ensures all { OnOk result (has_in store.new ≡ with_all (has_in store.old) entries.items) }
    ensures same { OnErr result (has_in store.new ≡ has_in store.old) }
    ensures refused { IfErr result (GivesBack (store_facts store.new) entries.items) }
    ensures path { store.new.path ≡ store.old.path }
{
    if timeline.is_failing() {
        return Err(PutFault::Failed);
    }
    if timeline.is_failing() || store.batches.reserve(1).is_err() {
        return Err(PutFault::OutOfMemory(entries));
    }
    match store.batches.push(entries) {
        Ok(()) => Ok(()),
        Err(_) => Err(PutFault::Failed),
    }
}

/// Whether this is the only one of some addresses.
fn is_only(addresses: &[&str], address: &str) -> bool {
    match addresses {
        [only] => *only == address,
        _ => false,
    }
}

impl<'a> Binds<'a> {
    /// Whether a port can be bound at an address, to send to these.
    fn allows(&self, address: &str, to: &[&str]) -> bool {
        match self {
            Binds::Nowhere => false,
            Binds::Anywhere => true,
            Binds::At(only, other) => address == *only && is_only(to, other),
        }
    }
}

impl<'a> MemorySystem<'a> {
    /// Binds a port.
    fn bind_at(
        &self,
        timeline: &mut MemoryTimeline,
        alloc: Global,
        address: &str,
        to: &[&str],
    ) -> Result<MemoryPort<'a>, BindFault>
        ensures events { events_in timeline.new ≡ events_in timeline.old }
        ensures bound { IfOk result (λ port. (port_state port).address ≡ address.now) }
        ensures each { IfOk result (λ port. AreNamed (port_state port).own (map (λ s. s.now) to.now) (port_state port).to) }
    {
        if timeline.is_failing() || !self.binds.allows(address, to) {
            return Err(BindFault::Unbound);
        }
        match MemoryPort::new(alloc, address, self.own, to, self.turns) {
            Ok(port) => Ok(port),
            Err(_) => Err(BindFault::OutOfMemory),
        }
    }
}

impl<'a> System for MemorySystem<'a> {
    ghost use Rattle.system_fakes.specs.DiskLaws.{either_is};
    ghost use Rattle.system_fakes.specs.MemoryDiskLaws.{holds_one};
    ghost use Rattle.system_fakes.specs.MemoryInputs.{gives_one};
    ghost use Rattle.timeline_fakes.specs.Memories.{file_disk, memory_outside};
    ghost use Rattle.timeline_fakes.specs.MemoryLaws.{outlet_one};

    type Timeline = MemoryTimeline;

    type Port = MemoryPort<'a>;

    type File = MemoryFile;

    type Lock = MemoryLock;

    type Store = MemoryStore;

    type Lines = MemoryLines<'a>;

    ghost outside = { memory_outside };

    ghost one = { λ s. record { disk = λ _. holds_one s.disk; input = λ _. gives_one s.input; file = λ f a b c. either_is (file_disk f) a b c; output = outlet_one } };

    fn names(
        &self,
        timeline: &mut MemoryTimeline,
        alloc: Global,
        folder: &str,
    ) -> Result<Vec<String>, ReadFault> {
        let got = self.disk.names(alloc, folder);
        let made = folder_listed(timeline.alloc(), folder, &got);
        timeline.keep(made);
        got
    }

    fn read(
        &self,
        timeline: &mut MemoryTimeline,
        alloc: Global,
        path: &str,
    ) -> Result<Vec<u8>, ReadFault> {
        let got = self.disk.read(alloc, path);
        let made = file_read(timeline.alloc(), path, &got);
        timeline.keep(made);
        got
    }

    fn read_within(
        &self,
        timeline: &mut MemoryTimeline,
        alloc: Global,
        path: &str,
        most: u64,
    ) -> Result<Vec<u8>, ReadFault> {
        let got = self.disk.read_within(alloc, path, most);
        let made = file_read(timeline.alloc(), path, &got);
        timeline.keep(made);
        got
    }

    fn look_within(
        &self,
        timeline: &mut MemoryTimeline,
        alloc: Global,
        path: &str,
        most: u64,
    ) -> Result<Vec<u8>, ReadFault> {
        let got = self.disk.look_within(alloc, path, most);
        let made = file_sought(timeline.alloc(), path, &got);
        timeline.keep(made);
        got
    }

    fn read_with_mode(
        &self,
        timeline: &mut MemoryTimeline,
        alloc: Global,
        path: &str,
        most: u64,
    ) -> Result<FileWithMode, ReadFault> {
        let got = self.disk.read_with_mode(alloc, path, most);
        let made = file_with_mode_read(timeline.alloc(), path, &got);
        timeline.keep(made);
        got
    }

    fn read_input(
        &self,
        timeline: &mut MemoryTimeline,
        alloc: Global,
    ) -> Result<Vec<u8>, ReadFault> {
        let got = self.input.read_to_end(alloc);
        let made = input_read(timeline.alloc(), &got);
        timeline.keep(made);
        got
    }

    fn file_lines(
        &self,
        timeline: &mut MemoryTimeline,
        alloc: Global,
        path: &str,
    ) -> Result<MemoryLines<'a>, ReadFault> {
        let got = self.disk.lines(alloc, path);
        let made = file_lines_opened(timeline.alloc(), path, is_done(&got));
        timeline.keep(made);
        got
    }

    fn input_lines(
        &self,
        timeline: &mut MemoryTimeline,
        alloc: Global,
    ) -> Result<MemoryLines<'a>, AllocError> {
        let got = self.input.lines(alloc);
        let is_done = is_done(&got);
        timeline.keep(Ok(Recorded::InputLinesOpened { is_done }));
        got
    }

    fn next_line(
        &self,
        timeline: &mut MemoryTimeline,
        lines: &mut MemoryLines<'a>,
        line: &mut Vec<u8>,
    ) -> Result<bool, ReadFault> {
        let had_come = had_come(lines);
        let got = lines.next_line(line);
        let made = line_taken(timeline.alloc(), &got, line, had_come);
        timeline.keep(made);
        got
    }

    fn has_line(&self, lines: &MemoryLines<'a>) -> bool {
        lines.has_line()
    }

    // Where it fails, half of the bytes are written.
    fn write(
        &self,
        timeline: &mut MemoryTimeline,
        to: Stream,
        bytes: &[u8],
    ) -> Result<(), WriteFault> {
        timeline.set_outlet(to, Outlet::Waits);
        if timeline.is_refusing(to) {
            let made = wrote(timeline.alloc(), to, &bytes[..bytes.len() / 2]);
            timeline.keep(made);
            timeline.keep(Ok(Recorded::Refused { to }));
            return Err(WriteFault::Io);
        }
        let made = wrote(timeline.alloc(), to, bytes);
        timeline.keep(made);
        Ok(())
    }

    fn flush(&self, timeline: &mut MemoryTimeline, to: Stream) -> Result<(), WriteFault> {
        if timeline.is_refusing(to) {
            timeline.set_outlet(to, Outlet::Stuck);
            timeline.keep(Ok(Recorded::Refused { to }));
            return Err(WriteFault::Io);
        }
        timeline.set_outlet(to, Outlet::Gone);
        timeline.keep(Ok(Recorded::Flushed { to }));
        Ok(())
    }

    fn note(&self, timeline: &mut MemoryTimeline, parts: &[&str]) {
        let made = noted(timeline.alloc(), parts);
        timeline.keep(made);
    }

    fn bind(
        &self,
        timeline: &mut MemoryTimeline,
        alloc: Global,
        address: &str,
        to: &[&str],
    ) -> Result<MemoryPort<'a>, BindFault> {
        let got = self.bind_at(timeline, alloc, address, to);
        let made = port_bound(timeline.alloc(), address, to, done(&got));
        timeline.keep(made);
        got
    }

    fn own_address(&self, port: &MemoryPort<'a>) -> Option<SocketAddr> {
        port.own
    }

    fn receive(
        &self,
        timeline: &mut MemoryTimeline,
        port: &mut MemoryPort<'a>,
        buffer: &mut [u8; 64],
    ) -> Result<usize, PortFault> {
        let got = receive_next(timeline, port, buffer);
        let made = recorded::received(timeline.alloc(), &got, port.sender, buffer);
        timeline.keep(made);
        got
    }

    fn receive_in_time(
        &self,
        timeline: &mut MemoryTimeline,
        port: &mut MemoryPort<'a>,
        wait: Duration,
        buffer: &mut [u8; 64],
    ) -> Result<Option<usize>, PortFault> {
        let got = receive_in_turn(timeline, port, buffer);
        let made = recorded::received_in_time(timeline.alloc(), &got, port.sender, buffer, wait);
        timeline.keep(made);
        got
    }

    fn sender(&self, port: &MemoryPort<'a>) -> Option<SocketAddr> {
        port.sender
    }

    fn answer(&self, port: &mut MemoryPort<'a>, sender: Option<SocketAddr>) {
        port.sender = sender;
    }

    // Where it fails, all of it is given to the system.
    fn send(
        &self,
        timeline: &mut MemoryTimeline,
        port: &mut MemoryPort<'a>,
        bytes: &[u8],
    ) -> Result<(), PortFault> {
        keep_sends(timeline, port.sender, &port.to, bytes);
        if timeline.is_failing() {
            port.fail();
            return Err(PortFault::Failed);
        }
        Ok(())
    }

    fn lock(
        &self,
        timeline: &mut MemoryTimeline,
        alloc: Global,
        path: &str,
    ) -> Result<MemoryLock, LockFault> {
        let got = lock_at(timeline, alloc, path);
        let made = locked(timeline.alloc(), path, done(&got));
        timeline.keep(made);
        got
    }

    fn file(
        &self,
        timeline: &mut MemoryTimeline,
        alloc: Global,
        path: &str,
    ) -> Result<MemoryFile, AllocError> {
        let got = MemoryFile::new(alloc, path, kept_at(self.kept, path, self.elsewhere));
        let made = file_opened(timeline.alloc(), path, is_done(&got));
        timeline.keep(made);
        got
    }

    fn start(
        &self,
        timeline: &mut MemoryTimeline,
        alloc: Global,
        file: &mut MemoryFile,
    ) -> Result<Option<Vec<u8>>, ReadFault> {
        let got = begin(alloc, &mut file.disk);
        let made = recorded::found(timeline.alloc(), &file.path, &got);
        timeline.keep(made);
        got
    }

    fn put(
        &self,
        timeline: &mut MemoryTimeline,
        file: &mut MemoryFile,
        bytes: &[u8],
    ) -> io::Result<()> {
        let got = replace(&mut file.disk, bytes);
        let made = recorded::put(timeline.alloc(), &file.path, bytes, is_done(&got));
        timeline.keep(made);
        got
    }

    fn store(
        &self,
        timeline: &mut MemoryTimeline,
        alloc: Global,
        path: &str,
    ) -> Result<MemoryStore, StoreFault> {
        let got = store_at(timeline, alloc, path);
        let made = store_opened(timeline.alloc(), path, done(&got));
        timeline.keep(made);
        got
    }

    fn find<'s>(
        &self,
        timeline: &mut MemoryTimeline,
        store: &'s MemoryStore,
        stamp: &Key,
    ) -> Option<&'s [u8]> {
        let got = store.find(stamp);
        let made = record_sought(timeline.alloc(), &store.path, stamp, got);
        timeline.keep(made);
        got
    }

    fn commit(
        &self,
        timeline: &mut MemoryTimeline,
        store: &mut MemoryStore,
        entries: Vec<Entry>,
    ) -> Result<(), PutFault> {
        let copies = same_entries(timeline.alloc(), &entries);
        let got = put_batch(timeline, store, entries);
        let made = committed(timeline.alloc(), &store.path, copies, is_done(&got));
        timeline.keep(made);
        got
    }

    fn stored(
        &self,
        _alloc: Global,
        _db: Vec<u8>,
        _log: Vec<u8>,
    ) -> Result<Vec<Entry>, StoreFault> {
        Err(StoreFault::Unreadable)
    }
}
