//! The store of a folder of games.

ghost use Rattle.std.specs.Prelude.{◌≡◌, IfOk, IfErr, IsTrue, OnOk, OnErr, map, option_map};
ghost use Rattle.sqlite.specs.State.{HasCleanDisk, Survives};
ghost use Rattle.sqlite.specs.Held.{state};
ghost use Rattle.system_io.specs.Records.{AreSame, records_of, with_all};
ghost use Rattle.game_store.specs.Listing.{ListsGames, as_listed};
ghost use Rattle.game_store.specs.Places.{put_fault_of, store_fault_of};
ghost use Rattle.game_store.specs.Shelves.{HoldsBatchOrNot, HoldsGames, IsOpen, IsTrusted, KeepsCommitted, Leaves, committed, database, remembered};

use crate::fault::DatabaseFault;
use crate::memory::{Kept, Memory, entries_of};
use crate::reading::prepare;
use crate::sqlite_stores::told;
use crate::writing::{put, takes_more};
use sqlite::{Alter, Connection};
use std::alloc::{AllocError, Global};
use std::marker::Model;
use system_io::{Entry, Key, PutFault, RecordStore, StoreFault};

/// The records of all games of a folder, in a database and in memory.
pub struct Store<S: Alter> {
    conn: Connection<S>,
    memory: Memory,
}

impl<S: Alter> Model for Store<S> {
    ghost use Rattle.game_store.specs.Shelves.{HasCommittedGames, Shelf, shelf_code};

    ghost Value = { Shelf S };

    ghost coded = { shelf_code S.code };

    ghost view = { λ s. record { conn = s.conn; slots = s.memory } };

    ghost invariant = { λ s. HasCommittedGames S.Store s.conn s.memory };
}

impl<S: Alter + Drop> Drop for Store<S> {
    fn drop(self) {
        let Store { conn: _, memory: _ } = self;
    }
}

impl<S: Alter> Store<S> {
    /// Takes the database of a connection, makes the table of the games where it has none, and reads all games. It refuses one that
    /// has other tables (`OtherTables`), a row that is none of a game (`BadRow`) or two rows of one stamp (`SameStamp`), and a
    /// connection that is in a transaction. With an error the connection comes back.
    pub fn over(
        alloc: Global,
        mut conn: Connection<S>,
    ) -> Result<Store<S>, (DatabaseFault, Connection<S>)>
        // It has the games that the database held, and each loss of power leaves them.
        ensures found { IfOk result (λ store. IsTrusted S.Store store → HoldsGames (state S.Store conn).committed.trees (committed S.Store store)) }
        ensures open { IfOk result (λ store. IsTrusted S.Store store → IsOpen S.Store store) }
        ensures lasts { IfOk result (λ store. IsTrusted S.Store store → Leaves S.Store store (λ db. HoldsGames db (committed S.Store store))) }
        ensures has { IfOk result (λ store. IsTrusted S.Store store → AreSame (remembered store) (committed S.Store store)) }

        // A stop or a loss of power within the call leaves what it could leave before, or these games.
        ensures crash { IfOk result (λ store. Survives (state S.Store conn) (database S.Store store) (KeepsCommitted (state S.Store conn))) }
        ensures refused { IfErr result (λ e. Survives (state S.Store conn) (state S.Store e.1) (KeepsCommitted (state S.Store conn))) }
    {
        match prepare(alloc, &mut conn) {
            Ok(memory) => Ok(Store { conn, memory }),
            Err(fault) => Err((fault, conn)),
        }
    }

    /// The connection, less the games in memory.
    pub(crate) fn into_connection(self) -> Connection<S>
        ensures same { result ≡ self.conn }
        ensures holds { IsTrusted S.Store self → IsOpen S.Store self → HoldsGames (database S.Store self).committed.trees (committed S.Store self) }
    {
        let Store { conn, memory: _ } = self;
        conn
    }

    /// All games, in the order of their stamps.
    pub fn list(&self, alloc: Global) -> Result<Vec<Kept<'_>>, AllocError>
        ensures { IfOk result (λ all. ListsGames (map as_listed all.items) (remembered self.now)) }
    {
        self.memory.list(alloc)
    }

    /// All games, as they would be put.
    pub(crate) fn entries(&self, alloc: Global) -> Result<Vec<Entry>, AllocError>
        ensures { IfOk result (λ entries. AreSame (records_of entries.items) (remembered self.now)) }
    {
        let games = self.memory.list(alloc)?;
        entries_of(alloc, &games)
    }

    /// The record of a game, if it has one.
    pub fn record_of(&self, stamp: &Key) -> Option<&[u8]>
        ensures found { option_map (λ b. b.now) result ≡ option_map (λ game. game.bytes) (remembered self.now stamp.now) }
        ensures committed { IsTrusted S.Store self.now → IsOpen S.Store self.now → AreSame (remembered self.now) (committed S.Store self.now) }
    {
        self.memory.find(stamp)
    }

    /// Puts all records or none, by one commit. The record of a game stands in place of the one before, and of two in one batch the
    /// later one. An error may shut the store: it is then opened again. The batch comes back with it.
    pub fn put_batch(&mut self, entries: Vec<Entry>) -> Result<(), (DatabaseFault, Vec<Entry>)>
        // At `Ok` each entry is committed, in turn, and what is kept of all other games is as before,
        ensures all { IsTrusted S.Store self.new → OnOk result (AreSame (committed S.Store self.new) (with_all (committed S.Store self.old) entries.items)) }
        ensures open { IsTrusted S.Store self.new → OnOk result (IsOpen S.Store self.new) }
        ensures kept { OnOk result (AreSame (remembered self.new) (with_all (remembered self.old) entries.items)) }
        // and after an error that leaves the store open, nothing is.
        ensures none { IsTrusted S.Store self.new → IsOpen S.Store self.new → OnErr result (AreSame (committed S.Store self.new) (committed S.Store self.old)) }
        ensures same { OnErr result (AreSame (remembered self.new) (remembered self.old)) }
        ensures back { IfErr result (λ e. e.1.items ≡ entries.items) }
        // Memory has what is committed, before and after.
        ensures had { IsTrusted S.Store self.old → IsOpen S.Store self.old → AreSame (remembered self.old) (committed S.Store self.old) }
        ensures has { IsTrusted S.Store self.new → IsOpen S.Store self.new → AreSame (remembered self.new) (committed S.Store self.new) }

        // A stop or a loss of power within the call, also one after which the store is shut, leaves the games as they were, or all
        // with the whole batch. From then on it leaves what is committed.
        ensures stops { IsTrusted S.Store self.new → IsOpen S.Store self.old → Leaves S.Store self.new (HoldsBatchOrNot (committed S.Store self.old) entries.items) }
        ensures crash { Survives (database S.Store self.old) (database S.Store self.new) (λ db. IsOpen S.Store self.old → HoldsGames db (with_all (committed S.Store self.old) entries.items)) }
        ensures lasts { IsTrusted S.Store self.new → IsOpen S.Store self.new → Leaves S.Store self.new (λ db. HoldsGames db (committed S.Store self.new)) }
    {
        match self.memory.add_all(&entries) {
            Ok(()) => {}
            Err(fault) => return Err((fault, entries)),
        }
        prove!(self.conn.is_autocommit());
        match put(&mut self.conn, &self.memory, &entries) {
            Ok(()) => {
                self.memory.keep_all(entries);
                Ok(())
            }
            Err(error) => Err((DatabaseFault::Sqlite(error), entries)),
        }
    }

    /// Whether the store goes on after a batch that could not be put.
    fn goes_on(&mut self) -> bool
        ensures open { IsTrusted S.Store self.new → IsTrue result → IsOpen S.Store self.new }
        ensures was { IsTrusted S.Store self.new → IsOpen S.Store self.new → IsOpen S.Store self.old }
        ensures none { IsTrusted S.Store self.new → IsOpen S.Store self.new → AreSame (committed S.Store self.new) (committed S.Store self.old) }
        ensures same { AreSame (remembered self.new) (remembered self.old) }
        ensures has { IsTrusted S.Store self.new → IsOpen S.Store self.new → AreSame (remembered self.new) (committed S.Store self.new) }
        ensures crash { Survives (database S.Store self.old) (database S.Store self.new) (λ _. ⊥) }
        ensures lasts { IsTrusted S.Store self.new → IsOpen S.Store self.new → Leaves S.Store self.new (λ db. HoldsGames db (committed S.Store self.new)) }
    {
        takes_more(&mut self.conn)
    }
}

/// What is told of a batch that was not put: want of memory where that was the fault and the store goes on.
fn told_of_put(fault: DatabaseFault, goes_on: bool, batch: Vec<Entry>) -> PutFault
    ensures { result ≡ put_fault_of (store_fault_of fault) goes_on batch }
{
    match (told(fault), goes_on) {
        (StoreFault::OutOfMemory, true) => PutFault::OutOfMemory(batch),
        _ => PutFault::Failed,
    }
}

impl<S: Alter> RecordStore for Store<S> {
    ghost use Rattle.game_store.specs.Shelves.{store_facts};

    ghost facts = { store_facts S.Store };

    fn find(&self, stamp: &Key) -> Option<&[u8]> {
        self.record_of(stamp)
    }

    fn put_all(&mut self, entries: Vec<Entry>) -> Result<(), PutFault> {
        match self.put_batch(entries) {
            Ok(()) => Ok(()),
            Err((fault, batch)) => Err(told_of_put(fault, self.goes_on(), batch)),
        }
    }
}
