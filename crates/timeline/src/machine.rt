//! The system's own disk, input, output, ports, files and stores, as one outside.

use crate::stream::Stream;
use crate::system::System;
use std::alloc::{AllocError, Global};
use std::fs::File;
use std::io::{self, Write};
use std::marker::PhantomData;
use std::net::{Net, SocketAddr, UdpSocket};
use std::rt::Files;
use std::time::{Clock, Duration};
use system_io::{
    BindFault, BufferedOutput, Disk, Entry, FileCalls, FileWithMode, Host, Input, KeptFile, Key,
    LineDisk, LineReader, LockFault, LockFile, Output, Port, PortFault, PutFault, ReadFault,
    RecordStore, StoreFault, Stores, SystemCalls, SystemFile, SystemHost, UdpPort, Unrecorded,
    WriteFault, begin, replace,
};

/// A disk, an input, and the ports, files, locks and stores of the system. What it says of each call is what its parts say. Its events
/// aren't recorded, so it builds none.
#[derive(Drop)]
pub struct Machine<
    'a,
    D: LineDisk + Drop,
    I: Input + Drop,
    R: Files<File = File> + Net + Clock + AllocGlobal,
    N: Write + Copy + Drop,
    T: Stores,
    W: Output + Drop,
> {
    disk: D,
    input: I,
    host: SystemHost<'a, R, N, T>,
    out: PhantomData<W>,
}

/// What there is once of a system: its output and errors, which are buffered, and that it isn't recorded what its host makes.
#[derive(Drop)]
pub struct MachineTimeline<W: Output + Drop, E: Output + Drop> {
    history: Unrecorded,
    out: W,
    errors: E,
}

/// A file in which something is kept, and its path.
#[derive(Drop)]
pub struct MachineFile<F: Drop> {
    path: String,
    file: F,
}

/// A store, and its path.
#[derive(Drop)]
pub struct MachineStore<S: Drop> {
    path: String,
    store: S,
}

/// The lines of a file or of the input.
#[derive(Drop)]
pub enum MachineLines<A: LineReader + Drop, B: LineReader + Drop> {
    /// Those of a file.
    OfFile(A),
    /// Those of the input.
    OfInput(B),
}

impl<'a, D, I, R, N, T, W> Machine<'a, D, I, R, N, T, W>
where
    D: LineDisk + Drop,
    I: Input + Drop,
    R: Files<File = File> + Net + Clock + AllocGlobal,
    N: Write + Copy + Drop,
    T: Stores,
    W: Output + Drop,
{
    /// A system of this disk, this input and this host.
    pub fn new(disk: D, input: I, host: SystemHost<'a, R, N, T>) -> Machine<'a, D, I, R, N, T, W> {
        Machine {
            disk,
            input,
            host,
            out: PhantomData,
        }
    }
}

impl<W: Output + Drop, E: Output + Drop> MachineTimeline<W, E> {
    /// The timeline of a system with this output and these errors, from the history of its host.
    pub fn new(history: Unrecorded, out: W, errors: E) -> MachineTimeline<W, E> {
        MachineTimeline {
            history,
            out,
            errors,
        }
    }
}

impl<'a, D, I, R, N, T, W> System for Machine<'a, D, I, R, N, T, W>
where
    D: LineDisk + Drop,
    I: Input + Drop,
    R: Files<File = File> + Net + Clock + AllocGlobal,
    N: Write + Copy + Drop,
    T: Stores,
    W: Output + Drop,
{
    ghost use Rattle.system_io.specs.OutputLaws.{not_both};
    ghost use Rattle.system_io.specs.TraceLaws.{says_one};
    ghost use Rattle.timeline.specs.Machines.{machine_outside};
    ghost use Rattle.timeline.specs.MachineLaws.{outputs_one};

    type Timeline = MachineTimeline<W, BufferedOutput<N>>;

    type Port = UdpPort<'a, R, UdpSocket, N>;

    type File = MachineFile<SystemFile<'a, R, N>>;

    type Lock = LockFile;

    type Store = MachineStore<T::Store>;

    type Lines = MachineLines<D::Lines, I::Lines>;

    ghost outside = { λ s. machine_outside (D.facts s.disk) (I.facts s.input) D.Lines.facts I.Lines.facts W.contents (⟦<BufferedOutput<N> as Write>⟧.contents) W.facts (⟦<BufferedOutput<N> as Output>⟧.facts) (⟦<SystemFile<'a, R, N> as KeptFile>⟧.facts) (⟦<SystemHost<'a, R, N, T> as Host>⟧.stores s.host) T.Store.facts };

    ghost one = { λ s. record { disk = D.one s.disk; input = I.one s.input; file = λ f a b c. says_one (⟦<SystemCalls<'a, R, N> as FileCalls>⟧.facts) f.file a b c; output = outputs_one W.facts (⟦<BufferedOutput<N> as Output>⟧.facts) W.one (λ e gone stuck. not_both _ gone.1 stuck) } };

    fn names(
        &self,
        _timeline: &mut Self::Timeline,
        alloc: Global,
        folder: &str,
    ) -> Result<Vec<String>, ReadFault> {
        self.disk.names(alloc, folder)
    }

    fn read(
        &self,
        _timeline: &mut Self::Timeline,
        alloc: Global,
        path: &str,
    ) -> Result<Vec<u8>, ReadFault> {
        self.disk.read(alloc, path)
    }

    fn read_within(
        &self,
        _timeline: &mut Self::Timeline,
        alloc: Global,
        path: &str,
        most: u64,
    ) -> Result<Vec<u8>, ReadFault> {
        self.disk.read_within(alloc, path, most)
    }

    fn look_within(
        &self,
        _timeline: &mut Self::Timeline,
        alloc: Global,
        path: &str,
        most: u64,
    ) -> Result<Vec<u8>, ReadFault> {
        self.disk.look_within(alloc, path, most)
    }

    fn read_with_mode(
        &self,
        _timeline: &mut Self::Timeline,
        alloc: Global,
        path: &str,
        most: u64,
    ) -> Result<FileWithMode, ReadFault> {
        self.disk.read_with_mode(alloc, path, most)
    }

    fn read_input(
        &self,
        _timeline: &mut Self::Timeline,
        alloc: Global,
    ) -> Result<Vec<u8>, ReadFault> {
        self.input.read_to_end(alloc)
    }

    fn file_lines(
        &self,
        _timeline: &mut Self::Timeline,
        alloc: Global,
        path: &str,
    ) -> Result<Self::Lines, ReadFault> {
        match self.disk.lines(alloc, path) {
            Ok(lines) => Ok(MachineLines::OfFile(lines)),
            Err(fault) => Err(fault),
        }
    }

    fn input_lines(
        &self,
        _timeline: &mut Self::Timeline,
        alloc: Global,
    ) -> Result<Self::Lines, AllocError> {
        match self.input.lines(alloc) {
            Ok(lines) => Ok(MachineLines::OfInput(lines)),
            Err(refused) => Err(refused),
        }
    }

    fn next_line(
        &self,
        _timeline: &mut Self::Timeline,
        lines: &mut Self::Lines,
        line: &mut Vec<u8>,
    ) -> Result<bool, ReadFault> {
        match lines {
            MachineLines::OfFile(lines) => lines.next_line(line),
            MachineLines::OfInput(lines) => lines.next_line(line),
        }
    }

    fn has_line(&self, lines: &Self::Lines) -> bool {
        match lines {
            MachineLines::OfFile(lines) => lines.has_line(),
            MachineLines::OfInput(lines) => lines.has_line(),
        }
    }

    fn write(
        &self,
        timeline: &mut Self::Timeline,
        to: Stream,
        bytes: &[u8],
    ) -> Result<(), WriteFault> {
        match to {
            Stream::Output => timeline.out.put(bytes),
            Stream::Errors => timeline.errors.put(bytes),
        }
    }

    fn flush(&self, timeline: &mut Self::Timeline, to: Stream) -> Result<(), WriteFault> {
        match to {
            Stream::Output => timeline.out.flush_all(),
            Stream::Errors => timeline.errors.flush_all(),
        }
    }

    fn note(&self, _timeline: &mut Self::Timeline, parts: &[&str]) {
        self.host.note(parts);
    }

    fn bind(
        &self,
        timeline: &mut Self::Timeline,
        alloc: Global,
        address: &str,
        to: &[&str],
    ) -> Result<Self::Port, BindFault> {
        self.host.bind(alloc, &mut timeline.history, address, to)
    }

    fn own_address(&self, port: &Self::Port) -> Option<SocketAddr> {
        self.host.own_address(port)
    }

    fn receive(
        &self,
        _timeline: &mut Self::Timeline,
        port: &mut Self::Port,
        buffer: &mut [u8; 64],
    ) -> Result<usize, PortFault> {
        port.receive(buffer)
    }

    fn receive_in_time(
        &self,
        _timeline: &mut Self::Timeline,
        port: &mut Self::Port,
        wait: Duration,
        buffer: &mut [u8; 64],
    ) -> Result<Option<usize>, PortFault> {
        port.receive_in_time(wait, buffer)
    }

    fn sender(&self, port: &Self::Port) -> Option<SocketAddr> {
        port.sender()
    }

    fn answer(&self, port: &mut Self::Port, sender: Option<SocketAddr>) {
        port.answer(sender);
    }

    fn send(
        &self,
        _timeline: &mut Self::Timeline,
        port: &mut Self::Port,
        bytes: &[u8],
    ) -> Result<(), PortFault> {
        port.send(bytes)
    }

    fn lock(
        &self,
        timeline: &mut Self::Timeline,
        alloc: Global,
        path: &str,
    ) -> Result<LockFile, LockFault> {
        self.host.lock(alloc, &mut timeline.history, path)
    }

    fn file(
        &self,
        timeline: &mut Self::Timeline,
        alloc: Global,
        path: &str,
    ) -> Result<Self::File, AllocError> {
        let own = String::from_str(alloc, path)?;
        match self.host.file(alloc, &mut timeline.history, path) {
            Ok(file) => Ok(MachineFile { path: own, file }),
            Err(refused) => Err(refused),
        }
    }

    fn start(
        &self,
        _timeline: &mut Self::Timeline,
        alloc: Global,
        file: &mut Self::File,
    ) -> Result<Option<Vec<u8>>, ReadFault> {
        begin(alloc, &mut file.file)
    }

    fn put(
        &self,
        _timeline: &mut Self::Timeline,
        file: &mut Self::File,
        bytes: &[u8],
    ) -> io::Result<()> {
        replace(&mut file.file, bytes)
    }

    fn store(
        &self,
        timeline: &mut Self::Timeline,
        alloc: Global,
        path: &str,
    ) -> Result<Self::Store, StoreFault> {
        let Ok(own) = String::from_str(alloc, path) else {
            return Err(StoreFault::OutOfMemory);
        };
        match self.host.store(alloc, &mut timeline.history, path) {
            Ok(store) => Ok(MachineStore { path: own, store }),
            Err(fault) => Err(fault),
        }
    }

    fn find<'s>(
        &self,
        _timeline: &mut Self::Timeline,
        store: &'s Self::Store,
        stamp: &Key,
    ) -> Option<&'s [u8]> {
        store.store.find(stamp)
    }

    fn commit(
        &self,
        _timeline: &mut Self::Timeline,
        store: &mut Self::Store,
        entries: Vec<Entry>,
    ) -> Result<(), PutFault> {
        store.store.put_all(entries)
    }

    fn stored(&self, alloc: Global, db: Vec<u8>, log: Vec<u8>) -> Result<Vec<Entry>, StoreFault> {
        self.host.stored(alloc, db, log)
    }
}
