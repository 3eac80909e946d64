//! A store over the two files of its database.

ghost use Rattle.std.specs.Prelude.{IfOk, IfErr, IsTrue};
ghost use Rattle.sqlite_wal.specs.Files.{image_at, outcomes};
ghost use Rattle.sqlite_wal.specs.Reads.{AreClean};
ghost use Rattle.sqlite_trees.specs.View.{IsClean};
ghost use Rattle.sqlite_store.specs.FileStore.{recovers, view};
ghost use Rattle.sqlite.specs.Files.{IsCleanLeft, image_of, over_files};
ghost use Rattle.system_io.specs.Records.{AreSame};
ghost use Rattle.game_store.specs.Shelves.{HoldsGames, IsOpen, IsTrusted, Leaves, committed, database, remembered};
ghost use Rattle.game_store.specs.Files.{FindsBatch, FindsGames, HoldsGamesAlone, LeavesGames, NextOpenFinds};

use crate::fault::DatabaseFault;
use crate::open_fault::OpenFault;
use crate::store::Store;
use sqlite::{Connection, FileFrom, FileStore, Files, Leftover, Options, Start};
use sqlite_disk::Disk;
use std::alloc::Global;
use system_io::Entry;

impl<D: Disk + Drop> Store<FileStore<D>> {
    /// Opens the database that the two files hold, or makes one where they hold none. With an error comes what is left of the files.
    pub fn open(
        alloc: Global,
        files: Files<D>,
        options: Options,
    ) -> Result<Store<FileStore<D>>, (DatabaseFault, Leftover<D>)>
        requires log { IsTrue (D.Disk.is_usable files.log) }
        requires db { IsTrue (D.Disk.is_usable files.db) }
        // It has exactly the games that the files hold, and each loss of power leaves them.
        ensures found { IfOk result (λ store. IsTrusted over_files store → FindsGames (image_of D.Disk files) (committed over_files store)) }
        ensures open { IfOk result (λ store. IsTrusted over_files store → IsOpen over_files store) }
        ensures lasts { IfOk result (λ store. IsTrusted over_files store → Leaves over_files store (λ db. HoldsGames db (committed over_files store))) }
        ensures has { IfOk result (λ store. IsTrusted over_files store → AreSame (remembered store) (committed over_files store)) }
        // Where it fails, or stops within the call, the files are left with the games that they held.
        ensures refused { IfErr result (λ e. IsCleanLeft e.1 → LeavesGames files e.1) }
    {
        let conn = match Connection::open_files(alloc, files, options) {
            Ok(conn) => conn,
            Err((error, left)) => return Err((DatabaseFault::Sqlite(error), left)),
        };
        match Store::over(alloc, conn) {
            Ok(store) => Ok(store),
            Err((fault, conn)) => Err((fault, Leftover::Store(conn.into_store()))),
        }
    }

    /// Copies what is committed into the database file, and gives the two files back. Where that fails, what is left comes back, and
    /// holds no more than what the store could be left with.
    pub fn close(self) -> Result<Files<D>, (DatabaseFault, FileStore<D>)>
        // The database file alone holds the games, as it reads now and as a loss of power may leave it.
        ensures seen { IfOk result (λ files. AreClean D.Disk files.log files.db → HoldsGamesAlone (image_of D.Disk files) (committed over_files self)) }
        ensures left { IfOk result (λ files. AreClean D.Disk files.log files.db → (image : _) → outcomes D.Disk files.log files.db image → HoldsGamesAlone image (committed over_files self)) }
        ensures refused { IfErr result (λ e. IsClean (view e.1) → (db : _) → recovers e.1 db → (database over_files self).may_leave db) }
    {
        match self.into_connection().close_files() {
            Ok(files) => Ok(files),
            Err((error, left)) => Err((DatabaseFault::Sqlite(error), left)),
        }
    }

    /// Stops without a close. Of what a loss of power may leave then the next opening finds what the store could be left with.
    pub fn stop(self) -> FileStore<D>
        ensures finds { IsClean (view result) → NextOpenFinds result (database over_files self).may_leave }
        ensures clean { IsClean (view result) → IsTrusted over_files self }
    {
        self.into_connection().into_store()
    }

    /// Puts a batch and stops without a close. Read with the crash argument of the log (a stop in the middle of a call is a disk of
    /// which each call fails from then on) it speaks of a stop and of a loss of power at any moment of the call.
    pub fn put_and_stop(
        self,
        entries: Vec<Entry>,
    ) -> (Result<(), (DatabaseFault, Vec<Entry>)>, FileStore<D>)
        requires { IsOpen over_files self }
        // The next opening finds the whole batch, or, unless it was acknowledged, the games as they were.
        ensures { IsClean (view result.1) → NextOpenFinds result.1 (FindsBatch (committed over_files self) entries.items result.0) }
    {
        let mut store = self;
        let done = store.put_batch(entries);
        (done, store.stop())
    }
}

impl<S: Start> Store<FileStore<FileFrom<S>>> {
    /// Opens the database at a path, or makes it, with the log beside it (`-wal`). `S` stands for what the two files hold. With
    /// `Unknown` a torn write is taken to leave each byte old or new, with `Wary` it isn't. Another process that has the database
    /// open keeps this one out. The error is what the failed call told.
    pub fn open_at(
        rt: &HostRuntime,
        path: &str,
        start: S,
    ) -> Result<Store<FileStore<FileFrom<S>>>, OpenFault>
        ensures found { IfOk result (λ store. IsTrusted over_files store → FindsGames (image_at S.Start) (committed over_files store)) }
        ensures open { IfOk result (λ store. IsTrusted over_files store → IsOpen over_files store) }
        ensures lasts { IfOk result (λ store. IsTrusted over_files store → Leaves over_files store (λ db. HoldsGames db (committed over_files store))) }
        ensures has { IfOk result (λ store. IsTrusted over_files store → AreSame (remembered store) (committed over_files store)) }
    {
        let conn = match Connection::open_from(rt, path, false, start) {
            Ok(conn) => conn,
            Err(why) => return Err(OpenFault::of_opening(why)),
        };
        match Store::over(rt.alloc(), conn) {
            Ok(store) => Ok(store),
            Err(why) => Err(OpenFault::of_reading(why)),
        }
    }
}
