//! Where stores of records are opened, and how the two files of one are read.

ghost use Rattle.std.specs.Prelude.{◌≡◌, ◌++◌, IfOk, IsTrue, codes, map, string_bytes};
ghost use Rattle.std.specs.Io.{StartsWith};
ghost use Rattle.sqlite.specs.Files.{image_of};
ghost use Rattle.sqlite_disk.specs.Memory.{memory_bytes, memory_is_usable};
ghost use Rattle.system_io.specs.Records.{records_of};
ghost use Rattle.game_store.specs.Files.{FindsGames};
ghost use Rattle.game_store.specs.Places.{HaveBytes, copies_fault_of, store_fault_of};

use crate::fault::{DatabaseFault, OUT_OF_MEMORY};
use crate::open_fault::OpenFault;
use crate::store::Store;
use sqlite::{Error, ErrorCode, FileFrom, FileStore, Files, Options, Start};
use sqlite_disk::{Disk, Memory};
use std::alloc::{AllocError, Global};
use std::io::Write;
use system_io::{Entry, StoreFault, Stores};

/// The files of a store as they are opened, of which nothing is known: for `main` to name. As with the kit's `Unknown`, a torn write is
/// taken to leave each byte old or new, and at this type itself a clause on games says nothing of a file that isn't empty.
#[derive(Clone, Copy)]
pub struct AnyFiles;

impl Start for AnyFiles {
    ghost use Rattle.std.specs.Prelude.{[], true};

    ghost log = { [] };

    ghost db = { [] };

    ghost is_mixing = { true };

    fn mixes() -> bool {
        true
    }
}

/// The stores of this machine, each a database at a path and the log beside it (`-wal`). `S` stands for what the two files of a store hold
/// as they are opened. Code over any `S` is proved for all contents, so for those of each store that it opens; of two open stores whose
/// files differ nothing is said together.
#[derive(Drop)]
pub struct SqliteStores<'r, S: Start + Copy> {
    rt: &'r HostRuntime,
    start: S,
}

impl<'r, S: Start + Copy> SqliteStores<'r, S> {
    /// The stores of this machine.
    pub fn new(rt: &'r HostRuntime, start: S) -> SqliteStores<'r, S> {
        SqliteStores { rt, start }
    }

    /// What is told of a store at a path that can't be opened. But for memory, standard error says why.
    fn unopened(&self, path: &str, fault: OpenFault) -> StoreFault
        ensures { result ≡ store_fault_of fault.fault }
    {
        let fault = fault.cause();
        let told = told(fault);
        if let StoreFault::Unreadable = told {
            let mut notes = self.rt.stderr();
            let _told = writeln!(notes, "{path:?}: {fault}");
        }
        told
    }
}

impl<'r, S: Start + Copy> Stores for SqliteStores<'r, S> {
    ghost use Rattle.sqlite_wal.specs.Files.{image_at};
    ghost use Rattle.game_store.specs.Places.{store_places};

    type Store = Store<FileStore<FileFrom<S>>>;

    ghost facts = { λ _. store_places (image_at S.Start) };

    fn open(&self, alloc: Global, path: &str) -> Result<Store<FileStore<FileFrom<S>>>, StoreFault> {
        let Ok(plain) = plain_path(alloc, path) else {
            return Err(StoreFault::OutOfMemory);
        };
        match Store::open_at(self.rt, plain.as_str(), self.start) {
            Ok(store) => Ok(store),
            Err(fault) => Err(self.unopened(path, fault)),
        }
    }

    fn read(&self, alloc: Global, db: Vec<u8>, log: Vec<u8>) -> Result<Vec<Entry>, StoreFault> {
        let Ok(files) = files_of(alloc, &db, &log) else {
            return Err(StoreFault::OutOfMemory);
        };
        match entries_in(alloc, files) {
            Ok(entries) => Ok(entries),
            Err(fault) => Err(told_of_copies(fault)),
        }
    }
}

/// A path in a form that SQLite takes for a path. One that begins with `file:` it takes for a URI
/// (<https://www.sqlite.org/uri.html>), so that one begins with `./` then. The error comes only where memory is refused.
fn plain_path(alloc: Global, path: &str) -> Result<String, AllocError>
    ensures uri { IfOk result (λ plain. StartsWith path.now (codes "file:") → string_bytes plain ≡ codes "./" ++ path.now) }
    ensures path { IfOk result (λ plain. (StartsWith path.now (codes "file:") → ⊥) → string_bytes plain ≡ path.now) }
{
    if path.starts_with("file:") {
        format!(in alloc; "./{path}")
    } else {
        String::from_str(alloc, path)
    }
}

/// What is told of a store that can't be had.
pub(crate) fn told(fault: DatabaseFault) -> StoreFault
    ensures { result ≡ store_fault_of fault }
{
    match fault {
        DatabaseFault::Sqlite(Error::SqliteFailure(ErrorCode::OutOfMemory)) =>
            StoreFault::OutOfMemory,
        _ => StoreFault::Unreadable,
    }
}

/// What is told of the store that two files in memory hold, where it can't be read. A call of such a file fails only where memory is
/// refused, and a store whose file has failed is closed.
fn told_of_copies(fault: DatabaseFault) -> StoreFault
    ensures { result ≡ copies_fault_of fault }
{
    match fault {
        DatabaseFault::Sqlite(
            Error::SqliteFailure(
                ErrorCode::SystemIoFailure | ErrorCode::DiskFull | ErrorCode::Closed,
            ),
        ) => StoreFault::OutOfMemory,
        _ => told(fault),
    }
}

/// A file in memory with these bytes.
fn file_of(alloc: Global, bytes: &[u8]) -> Result<Memory, AllocError>
    ensures same { IfOk result (λ file. memory_bytes file ≡ bytes.now) }
    ensures usable { IfOk result (λ file. IsTrue (memory_is_usable file)) }
{
    let mut file = Memory::new(alloc);
    match file.write_at(0, bytes) {
        Ok(()) => Ok(file),
        Err(_) => Err(AllocError),
    }
}

/// A database file and its log in memory, with these bytes.
fn files_of(alloc: Global, db: &[u8], log: &[u8]) -> Result<Files<Memory>, AllocError>
    ensures { IfOk result (HaveBytes db.now log.now) }
{
    let db = file_of(alloc, db)?;
    let log = file_of(alloc, log)?;
    Ok(Files { log, db })
}

/// The records of the store that two files hold, whose reads tell no lie.
fn entries_in<D: Disk + Drop>(alloc: Global, files: Files<D>) -> Result<Vec<Entry>, DatabaseFault>
    requires log { IsTrue (D.Disk.is_usable files.log) }
    requires db { IsTrue (D.Disk.is_usable files.db) }
    requires honest { (file : D) → IsTrue (D.Disk.is_clean file) }
    ensures { IfOk result (λ entries. FindsGames (image_of D.Disk files) (records_of entries.items)) }
{
    let store = match Store::open(alloc, files, Options::new(0)) {
        Ok(store) => store,
        Err((fault, _left)) => return Err(fault),
    };
    match store.entries(alloc) {
        Ok(entries) => Ok(entries),
        Err(_) => Err(OUT_OF_MEMORY),
    }
}
