//! The stores of this machine over files of which nothing is known, under short names: those that `main` passes on.

ghost use Rattle.game_store.specs.Places.{stores_within};

use crate::sqlite_stores::{AnyFiles, SqliteStores};
use crate::store::Store;
use crate::store_file::StoreFile;
use sqlite::{FileFrom, FileStore};
use std::alloc::Global;
use system_io::{Entry, Key, PutFault, RecordStore, StoreFault, Stores};

/// A database at a path.
type Database = Store<FileStore<FileFrom<AnyFiles>>>;

/// Where such databases are.
type Databases<'r> = SqliteStores<'r, AnyFiles>;

/// A store at a path of this machine. It puts nothing where another file has taken the place of its database, as far as the path was
/// looked at: before a put, at most once a second.
#[derive(Drop)]
pub struct MachineStore {
    database: Database,
    file: StoreFile,
}

impl RecordStore for MachineStore {
    ghost facts = { λ s. ⟦<Database as RecordStore>⟧.facts s.database };

    fn find(&self, stamp: &Key) -> Option<&[u8]> {
        self.database.find(stamp)
    }

    fn put_all(&mut self, entries: Vec<Entry>) -> Result<(), PutFault> {
        if self.file.is_replaced() {
            self.file.note_replaced();
            return Err(PutFault::Failed);
        }
        self.database.put_all(entries)
    }
}

/// The stores of this machine, as `SqliteStores` has them over files of which nothing is known.
#[derive(Drop)]
pub struct MachineStores<'r> {
    rt: HostRuntime,
    databases: Databases<'r>,
}

impl<'r> MachineStores<'r> {
    /// The stores of this machine.
    pub fn new(rt: &'r HostRuntime) -> MachineStores<'r> {
        MachineStores {
            rt: *rt,
            databases: SqliteStores::new(rt, AnyFiles),
        }
    }
}

impl<'r> Stores for MachineStores<'r> {
    type Store = MachineStore;

    ghost facts = { λ m. stores_within (λ s. s.database) (⟦<Databases<'r> as Stores>⟧.facts m.databases) };

    fn open(&self, alloc: Global, path: &str) -> Result<MachineStore, StoreFault> {
        let database = match self.databases.open(alloc, path) {
            Ok(database) => database,
            Err(fault) => return Err(fault),
        };
        match StoreFile::at(self.rt, alloc, path) {
            Ok(file) => Ok(MachineStore { database, file }),
            Err(_) => Err(StoreFault::OutOfMemory),
        }
    }

    fn read(&self, alloc: Global, db: Vec<u8>, log: Vec<u8>) -> Result<Vec<Entry>, StoreFault> {
        self.databases.read(alloc, db, log)
    }
}
