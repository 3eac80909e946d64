//! Ports and kept files of the system.

use crate::host::{BindFault, Host, LockFault};
use crate::lock_file::{LockFile, fault_beside};
use crate::note_line::NoteLine;
use crate::notes::tell_refused;
use crate::record_store::{Entry, StoreFault, Stores};
use crate::system_file::SystemFile;
use crate::udp_port::UdpPort;
use std::alloc::{AllocError, Global};
use std::fs::File;
use std::io::{self, Write};
use std::net::{Net, SocketAddr, UdpSocket};
use std::rt::Files;
use std::time::Clock;

/// The history of the system's host, which isn't recorded: the system has it.
#[derive(Drop)]
pub struct Unrecorded {
    _one: (),
}

/// The ports, kept files and locks of the system, where its stores are opened, and a writer for their notes.
#[derive(Drop)]
pub struct SystemHost<
    'a,
    R: Files<File = File> + Net + Clock + AllocGlobal,
    W: Write + Copy + Drop,
    T: Stores,
> {
    rt: &'a R,
    notes: W,
    stores: &'a T,
}

impl<'a, R, W, T> SystemHost<'a, R, W, T>
where
    R: Files<File = File> + Net + Clock + AllocGlobal,
    W: Write + Copy + Drop,
    T: Stores,
{
    /// The ports, kept files, locks and stores of this system, and their history. They write their notes with this writer.
    pub fn new(rt: &'a R, notes: W, stores: &'a T) -> (SystemHost<'a, R, W, T>, Unrecorded) {
        (SystemHost { rt, notes, stores }, Unrecorded { _one: () })
    }

    /// Why the file at a path isn't locked. Where no other process has locked it, a note names the file at fault: that one, or what stands
    /// beside it where a file is kept.
    fn unlocked(&self, path: &str, error: io::Error) -> LockFault {
        if error.kind() != io::ErrorKind::WouldBlock {
            match fault_beside(self.rt, path) {
                Some((kept, why)) => tell_refused(self.notes, kept, &why),
                None => tell_refused(self.notes, path, &error),
            }
        }
        LockFault::from(error)
    }
}

impl<'a, R, W, T> Host for SystemHost<'a, R, W, T>
where
    R: Files<File = File> + Net + Clock + AllocGlobal,
    W: Write + Copy + Drop,
    T: Stores,
{
    ghost use Rattle.std.specs.Prelude.{IfErr, IfOk, None, OnOk};
    ghost use Rattle.system_io.specs.HostLaws.{places_one};
    ghost use Rattle.system_io.specs.Places.{Locks};
    ghost use Rattle.system_io.specs.Premises.{system_bars, system_gives, system_host};

    type Port = UdpPort<'a, R, UdpSocket, W>;

    type File = SystemFile<'a, R, W>;

    type Lock = LockFile;

    type Store = T::Store;

    type History = Unrecorded;

    ghost facts = { λ _. system_host };

    ghost stores = { λ h. T.facts h.stores.now };

    ghost made = { λ _. None };

    ghost one = { λ _ _. places_one };

    fn bind(
        &self,
        alloc: Global,
        _history: &mut Unrecorded,
        address: &str,
        to: &[&str],
    ) -> Result<UdpPort<'a, R, UdpSocket, W>, BindFault> {
        Ok(UdpPort::bind(self.rt, alloc, self.notes, address, to)?)
    }

    fn own_address(&self, port: &UdpPort<'a, R, UdpSocket, W>) -> Option<SocketAddr> {
        port.own_address()
    }

    fn file(
        &self,
        alloc: Global,
        _history: &mut Unrecorded,
        path: &str,
    ) -> Result<SystemFile<'a, R, W>, AllocError> {
        SystemFile::at(self.rt, alloc, self.notes, path)
    }

    fn lock(
        &self,
        alloc: Global,
        _history: &mut Unrecorded,
        path: &str,
    ) -> Result<LockFile, LockFault>
        ensures given { OnOk result (system_gives path.now) }
        ensures cause { IfErr result (system_bars path.now) }
        ensures at { IfOk result (Locks path.now) }
    {
        match LockFile::at(self.rt, alloc, path) {
            Ok(lock) => Ok(lock),
            Err(error) => Err(self.unlocked(path, error)),
        }
    }

    fn store(
        &self,
        alloc: Global,
        _history: &mut Unrecorded,
        path: &str,
    ) -> Result<T::Store, StoreFault> {
        self.stores.open(alloc, path)
    }

    fn stored(&self, alloc: Global, db: Vec<u8>, log: Vec<u8>) -> Result<Vec<Entry>, StoreFault> {
        self.stores.read(alloc, db, log)
    }

    fn note(&self, parts: &[&str]) {
        let mut line = NoteLine::over(self.notes);
        for part in parts {
            line.push(part.as_bytes());
        }
        line.push(b"\n");
        line.write();
    }
}
