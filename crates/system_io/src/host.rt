//! Where ports, kept files and stores are opened.

ghost use Rattle.std.specs.Prelude.{◌≡◌, true, ℕ, List, Option, length, map, IfErr, IfOk, OnErr, OnOk};
ghost use Rattle.system_io.specs.Histories.{Passes};
ghost use Rattle.system_io.specs.Hosts.{HostFacts, Made, PlacesOne, PortAt, FileAt, LockAt, StoreAt, if_made};
ghost use Rattle.system_io.specs.Records.{IsSettled, StorePlaces, records_of};

use crate::kept_file::KeptFile;
use crate::port::Port;
use crate::record_store::{Entry, RecordStore, StoreFault};
use std::alloc::{AllocError, Global};
use std::io;
use std::net::SocketAddr;

/// Why a port wasn't bound.
#[derive(Clone, Copy)]
pub enum BindFault {
    /// The address couldn't be bound.
    Unbound,
    /// Memory was refused.
    OutOfMemory,
}

impl From<AllocError> for BindFault {
    fn from(_e: AllocError) -> BindFault {
        BindFault::OutOfMemory
    }
}

impl From<io::Error> for BindFault {
    fn from(error: io::Error) -> BindFault {
        match error.kind() {
            io::ErrorKind::OutOfMemory => BindFault::OutOfMemory,
            _ => BindFault::Unbound,
        }
    }
}

/// Why a file wasn't locked.
#[derive(Clone, Copy)]
pub enum LockFault {
    /// Another process holds its lock.
    Held,
    /// The file can't be made or locked, or what stands there is no regular file.
    Failed,
    /// Memory or a descriptor was refused.
    OutOfMemory,
}

/// Where ports, kept files and stores are opened. Whoever opens one is lent the history of the host, of which there is one for each: so the
/// history of a call has all that was made by it.
pub trait Host {
    /// A port.
    type Port: Port + Drop;

    /// A file in which a record is kept.
    type File: KeptFile + Drop;

    /// What keeps other processes from a file, until it is dropped or the process ends.
    type Lock: Drop;

    /// A store of records.
    type Store: RecordStore + Drop;

    /// What was made at the host so far. Nothing but the host makes one.
    type History;

    /// Which addresses ports are bound to, which file is at a path, and which locks are given.
    ghost facts: { Self → HostFacts Self.Port Self.File };

    /// Which store is at a path, and which records the files of a store hold.
    ghost stores: { Self → StorePlaces Self.Store };

    /// The ports, files, locks and stores of a history in order; none where they aren't recorded.
    ghost made: { Self.History → Option (List Made) };

    /// A port that is bound to an address and sends to others. Among these the word `sender` stands for the address from which the last
    /// datagram came.
    fn bind(
        &self,
        alloc: Global,
        history: &mut Self::History,
        address: &str,
        to: &[&str],
    ) -> Result<Self::Port, BindFault>
        ensures bound { IfOk result ((facts self.now).binds address.now (map (λ s. s.now) to.now)) }
        ensures each { IfOk result (λ port. (Self.Port.facts port).addresses ≡ length to.now) }
        ensures cause { IfErr result ((facts self.now).refuses address.now) }
        ensures made { Passes (made history.old) (made history.new) (if_made result (PortAt address.now (map (λ s. s.now) to.now))) };

    /// The address at which a port listens, with the number that it has got where it was bound to port 0; none where that isn't
    /// told. It takes no memory.
    fn own_address(&self, port: &Self::Port) -> Option<SocketAddr>
        ensures own { (facts self.now).listens port.now result };

    /// The file at a path. It need not exist yet.
    fn file(
        &self,
        alloc: Global,
        history: &mut Self::History,
        path: &str,
    ) -> Result<Self::File, AllocError>
        ensures at { IfOk result ((facts self.now).is_at path.now) }
        ensures memory { OnErr result ((facts self.now).takes_memory path.now) }
        ensures made { Passes (made history.old) (made history.new) (if_made result (FileAt path.now)) };

    /// Locks the file at a path, which is made where nothing stands, and which nothing is written to.
    fn lock(
        &self,
        alloc: Global,
        history: &mut Self::History,
        path: &str,
    ) -> Result<Self::Lock, LockFault>
        ensures given { OnOk result ((facts self.now).gives_lock path.now) }
        ensures cause { IfErr result ((facts self.now).bars path.now) }
        ensures made { Passes (made history.old) (made history.new) (if_made result (LockAt path.now)) };

    /// The store at a path. It is made where nothing stands.
    fn store(
        &self,
        alloc: Global,
        history: &mut Self::History,
        path: &str,
    ) -> Result<Self::Store, StoreFault>
        ensures at { IfOk result ((stores self.now).is_at path.now) }
        ensures settled { IfOk result (λ store. IsSettled (Self.Store.facts store)) }
        ensures cause { IfErr result ((stores self.now).refuses path.now) }
        ensures made { Passes (made history.old) (made history.new) (if_made result (StoreAt path.now)) };

    /// The records that the two files of a store hold, its database and the log beside it: what it would have, were it opened over
    /// them after a stop. The second one is empty where there is none. Nothing is opened, and neither is changed.
    fn stored(&self, alloc: Global, db: Vec<u8>, log: Vec<u8>) -> Result<Vec<Entry>, StoreFault>
        ensures held { IfOk result (λ entries. (stores self.now).holds db.items log.items (records_of entries.items)) }
        ensures cause { IfErr result ((stores self.now).withholds db.items log.items) };

    /// Notes a line of these parts for whoever runs the program, and ends it. A line that can't be noted is left out. It takes no memory.
    fn note(&self, parts: &[&str]);

    /// A host whose ports and files have stated places gives each of them one place.
    ghost one: { (h : Self) → (facts h).is_told ≡ true → PlacesOne (facts h) };
}
