//! A system whose ports are sealed.

ghost use Rattle.std.specs.Prelude.{◌≡◌};

use crate::seal_port::{Keys, MOST_BYTES, MacKeys};
use std::alloc::{AllocError, Global};
use std::io;
use std::marker::Model;
use std::net::SocketAddr;
use std::time::Duration;
use system_io::{
    BindFault, Entry, FileWithMode, Key, LockFault, PortFault, PutFault, ReadFault, StoreFault,
    WriteFault,
};
use timeline::{Stream, System};

/// What is noted of a datagram that is left out.
const LEFT_OUT: &str = "a datagram of more than 48 bytes was left out";

/// A system over another one: its ports give each datagram a tag, and pass on without it what carries a right one. For any other
/// datagram they pass on 64 bytes that are zero (`NO_TAG`). All else is that of the other, and the timeline too.
///
/// A datagram of more than 48 bytes is left out: it goes to nobody, that is noted, the call fails, and the failure is counted. From then on
/// what happened isn't known.
#[derive(Drop)]
pub struct KeyedSystem<'a, S> {
    system: &'a S,
    keys: MacKeys,
}

/// A port of a system with keys, over one of the system below, and how many datagrams it left out.
#[derive(Drop)]
pub struct KeyedPort<P: Drop> {
    port: P,
    left_out: u64,
}

impl<'a, S> Model for KeyedSystem<'a, S> {
    ghost use Rattle.sealed_port.specs.KeyedSystems.{KeyedSystemView};

    ghost Value = { KeyedSystemView S };

    ghost view = { λ k. record { system = k.system.now; keys = k.keys } };
}

impl<'a, S: System> KeyedSystem<'a, S> {
    /// The system whose ports seal by these keys.
    pub fn over(system: &'a S, keys: &Keys) -> KeyedSystem<'a, S>
        ensures { result ≡ record { system = system.entry.now; keys = keys.now } }
    {
        KeyedSystem {
            system,
            keys: MacKeys::of(keys),
        }
    }
}

#[tactic(auto, using(crate::proofs::KeyedLaws::adds_one))]
impl<'a, S: System> System for KeyedSystem<'a, S> {
    ghost use Rattle.std.specs.Prelude.{◌≡◌, ◌<◌, ◌≤◌, Err, length, OnErr};
    ghost use Rattle.system_io.specs.Failures.{Risen};
    ghost use Rattle.system_io.specs.declared.port.PortFault.TheVariants.{Failed};
    ghost use Rattle.timeline.specs.Outsides.{Adds, HeardNothing, sent_by};
    ghost use Rattle.sealed_port.specs.KeyedSystems.{LeavesItOut, SendsTagged, keyed_one, outside_with};

    type Timeline = S::Timeline;

    type Port = KeyedPort<S::Port>;

    type File = S::File;

    type Lock = S::Lock;

    type Store = S::Store;

    type Lines = S::Lines;

    ghost outside = { outside_with S.outside };

    ghost one = { λ k. keyed_one k.keys (S.outside k.system) (S.one k.system) };

    fn names(
        &self,
        timeline: &mut Self::Timeline,
        alloc: Global,
        folder: &str,
    ) -> Result<Vec<String>, ReadFault> {
        self.system.names(timeline, alloc, folder)
    }

    fn read(
        &self,
        timeline: &mut Self::Timeline,
        alloc: Global,
        path: &str,
    ) -> Result<Vec<u8>, ReadFault> {
        self.system.read(timeline, alloc, path)
    }

    fn read_within(
        &self,
        timeline: &mut Self::Timeline,
        alloc: Global,
        path: &str,
        most: u64,
    ) -> Result<Vec<u8>, ReadFault> {
        self.system.read_within(timeline, alloc, path, most)
    }

    fn look_within(
        &self,
        timeline: &mut Self::Timeline,
        alloc: Global,
        path: &str,
        most: u64,
    ) -> Result<Vec<u8>, ReadFault> {
        self.system.look_within(timeline, alloc, path, most)
    }

    fn read_with_mode(
        &self,
        timeline: &mut Self::Timeline,
        alloc: Global,
        path: &str,
        most: u64,
    ) -> Result<FileWithMode, ReadFault> {
        self.system.read_with_mode(timeline, alloc, path, most)
    }

    fn read_input(
        &self,
        timeline: &mut Self::Timeline,
        alloc: Global,
    ) -> Result<Vec<u8>, ReadFault> {
        self.system.read_input(timeline, alloc)
    }

    fn file_lines(
        &self,
        timeline: &mut Self::Timeline,
        alloc: Global,
        path: &str,
    ) -> Result<Self::Lines, ReadFault> {
        self.system.file_lines(timeline, alloc, path)
    }

    fn input_lines(
        &self,
        timeline: &mut Self::Timeline,
        alloc: Global,
    ) -> Result<Self::Lines, AllocError> {
        self.system.input_lines(timeline, alloc)
    }

    fn next_line(
        &self,
        timeline: &mut Self::Timeline,
        lines: &mut Self::Lines,
        line: &mut Vec<u8>,
    ) -> Result<bool, ReadFault> {
        self.system.next_line(timeline, lines, line)
    }

    fn has_line(&self, lines: &Self::Lines) -> bool {
        self.system.has_line(lines)
    }

    fn write(
        &self,
        timeline: &mut Self::Timeline,
        to: Stream,
        bytes: &[u8],
    ) -> Result<(), WriteFault> {
        self.system.write(timeline, to, bytes)
    }

    fn flush(&self, timeline: &mut Self::Timeline, to: Stream) -> Result<(), WriteFault> {
        self.system.flush(timeline, to)
    }

    fn note(&self, timeline: &mut Self::Timeline, parts: &[&str]) {
        self.system.note(timeline, parts);
    }

    fn bind(
        &self,
        timeline: &mut Self::Timeline,
        alloc: Global,
        address: &str,
        to: &[&str],
    ) -> Result<Self::Port, BindFault> {
        match self.system.bind(timeline, alloc, address, to) {
            Ok(port) => Ok(KeyedPort { port, left_out: 0 }),
            Err(fault) => Err(fault),
        }
    }

    fn own_address(&self, port: &Self::Port) -> Option<SocketAddr> {
        self.system.own_address(&port.port)
    }

    fn receive(
        &self,
        timeline: &mut Self::Timeline,
        port: &mut Self::Port,
        buffer: &mut [u8; 64],
    ) -> Result<usize, PortFault> {
        match self.system.receive(timeline, &mut port.port, buffer) {
            Ok(length) => Ok(self.keys.open(buffer, length)),
            Err(fault) => Err(fault),
        }
    }

    fn receive_in_time(
        &self,
        timeline: &mut Self::Timeline,
        port: &mut Self::Port,
        wait: Duration,
        buffer: &mut [u8; 64],
    ) -> Result<Option<usize>, PortFault> {
        match self
            .system
            .receive_in_time(timeline, &mut port.port, wait, buffer)
        {
            Ok(Some(length)) => Ok(Some(self.keys.open(buffer, length))),
            Ok(None) => Ok(None),
            Err(fault) => Err(fault),
        }
    }

    fn sender(&self, port: &Self::Port) -> Option<SocketAddr> {
        self.system.sender(&port.port)
    }

    fn answer(&self, port: &mut Self::Port, sender: Option<SocketAddr>) {
        self.system.answer(&mut port.port, sender);
    }

    fn send(
        &self,
        timeline: &mut Self::Timeline,
        port: &mut Self::Port,
        bytes: &[u8],
    ) -> Result<(), PortFault>
        ensures same { HeardNothing ((outside_with S.outside self.now).port port.old) ((outside_with S.outside self.now).port port.new) }
        ensures cause { OnErr result (Risen ((outside_with S.outside self.now).port port.old).faults ((outside_with S.outside self.now).port port.new).faults) }
        ensures made { Adds (outside_with S.outside self.now) timeline.old timeline.new (sent_by ((outside_with S.outside self.now).port port.old) bytes.now) }
        ensures short { length bytes.now ≤ 48 → SendsTagged self.now.keys (S.outside self.now.system) timeline.old timeline.new port.old port.new bytes.now }
        ensures long { 48 < length bytes.now → (result ≡ Err Failed) × LeavesItOut (S.outside self.now.system) timeline.old timeline.new port.old port.new }
    {
        if bytes.len() > MOST_BYTES {
            self.system.note(timeline, &[LEFT_OUT]);
            port.left_out = port.left_out.saturating_add(1);
            return Err(PortFault::Failed);
        }
        let datagram = self.keys.seal(bytes);
        self.system.send(timeline, &mut port.port, &datagram)
    }

    fn lock(
        &self,
        timeline: &mut Self::Timeline,
        alloc: Global,
        path: &str,
    ) -> Result<Self::Lock, LockFault> {
        self.system.lock(timeline, alloc, path)
    }

    fn file(
        &self,
        timeline: &mut Self::Timeline,
        alloc: Global,
        path: &str,
    ) -> Result<Self::File, AllocError> {
        self.system.file(timeline, alloc, path)
    }

    fn start(
        &self,
        timeline: &mut Self::Timeline,
        alloc: Global,
        file: &mut Self::File,
    ) -> Result<Option<Vec<u8>>, ReadFault> {
        self.system.start(timeline, alloc, file)
    }

    fn put(
        &self,
        timeline: &mut Self::Timeline,
        file: &mut Self::File,
        bytes: &[u8],
    ) -> io::Result<()> {
        self.system.put(timeline, file, bytes)
    }

    fn store(
        &self,
        timeline: &mut Self::Timeline,
        alloc: Global,
        path: &str,
    ) -> Result<Self::Store, StoreFault> {
        self.system.store(timeline, alloc, path)
    }

    fn find<'s>(
        &self,
        timeline: &mut Self::Timeline,
        store: &'s Self::Store,
        stamp: &Key,
    ) -> Option<&'s [u8]> {
        self.system.find(timeline, store, stamp)
    }

    fn commit(
        &self,
        timeline: &mut Self::Timeline,
        store: &mut Self::Store,
        entries: Vec<Entry>,
    ) -> Result<(), PutFault> {
        self.system.commit(timeline, store, entries)
    }

    fn stored(&self, alloc: Global, db: Vec<u8>, log: Vec<u8>) -> Result<Vec<Entry>, StoreFault> {
        self.system.stored(alloc, db, log)
    }
}
