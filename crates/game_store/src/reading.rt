//! What an opening reads.

ghost use Rattle.std.specs.Prelude.{◌≡◌, ◌≢◌, [], false, length, IfOk, IsTrue, OnOk};
ghost use Rattle.sqlite.specs.declared.types.Value.TheVariants.{Blob};
ghost use Rattle.sqlite.specs.Order.{column};
ghost use Rattle.sqlite.specs.State.{Executes, HasCleanDisk, Survives, CommitsBy};
ghost use Rattle.sqlite.specs.Held.{state};
ghost use Rattle.sqlite_catalog.specs.Listing.{IsSound};
ghost use Rattle.game_store.specs.Moments.{WhereTrusted};
ghost use Rattle.game_store.specs.Rows.{create_text, game_schema, no_schema};
ghost use Rattle.game_store.specs.Slots.{game_at};
ghost use Rattle.game_store.specs.Shelves.{HasRead, HoldsGames, IsReady, KeepsCommitted, MakesTable, Mirrors, ReadsGames, ReadsRows, TakesRow, TellsEntry};

use crate::fault::{DatabaseFault, OUT_OF_MEMORY, UNCOMMITTED};
use crate::memory::Memory;
use crate::tables::{Tables, tables_of};
use sqlite::{Alter, Connection, Error, ErrorCode, Row};
use std::alloc::Global;
use system_io::{Entry, Key};

/// Runs the statement that makes the table of the games.
fn run_create<S: Alter>(conn: &mut Connection<S>) -> Result<usize, Error>
    ensures runs { HasCleanDisk (state S.Store conn.new) → Executes create_text [] (state S.Store conn.old) (state S.Store conn.new) result }
    ensures survives { Survives (state S.Store conn.old) (state S.Store conn.new) (CommitsBy create_text [] (state S.Store conn.old)) }
{
    conn.execute(
        "CREATE TABLE game (id INTEGER PRIMARY KEY, stamp BLOB NOT NULL, count INTEGER NOT NULL, record BLOB NOT NULL) STRICT",
        &[],
    )
}

/// Makes the table of the games.
fn create<S: Alter>(conn: &mut Connection<S>) -> Result<(), DatabaseFault>
    ensures made { HasCleanDisk (state S.Store conn.new) → (state S.Store conn.old).now.schema ≡ no_schema → OnOk result (MakesTable (state S.Store conn.old) (state S.Store conn.new)) }
    ensures outside { OnOk result (conn.new.in_transaction ≡ false) }
    ensures survives { (state S.Store conn.old).now.schema ≡ no_schema
        → Survives (state S.Store conn.old) (state S.Store conn.new) (λ db. IsSound game_schema db × (db 0 ≡ [])) }
{
    match run_create(conn) {
        Err(error) => Err(DatabaseFault::Sqlite(error)),
        // That a statement is committed is known of a disk that tells no lie.
        Ok(_) if conn.is_autocommit() => Ok(()),
        Ok(_) => Err(UNCOMMITTED),
    }
}

/// All rows of the table.
fn select<S: Alter>(conn: &mut Connection<S>) -> Result<Vec<Row>, Error>
    ensures rows { WhereTrusted (λ old new. old.now.schema ≡ game_schema → IfOk result (λ rows. ReadsRows rows.items old new)) (state S.Store conn.old) (state S.Store conn.new) }
    ensures outside { conn.old.in_transaction ≡ false → conn.new.in_transaction ≡ false }
    ensures survives { Survives (state S.Store conn.old) (state S.Store conn.new) (λ _. (state S.Store conn.old).now.schema ≢ game_schema) }
{
    conn.query_all("SELECT id, stamp, count, record FROM game ORDER BY id", &[])
}

/// What is told of a value that reads as none of its kind, or for which memory is refused.
fn fault_of(error: Error) -> DatabaseFault {
    match error {
        Error::SqliteFailure(ErrorCode::OutOfMemory) => OUT_OF_MEMORY,
        _ => DatabaseFault::BadRow,
    }
}

/// The stamp of a row.
fn stamp_of(row: &Row) -> Result<Key, DatabaseFault>
    ensures { IfOk result (λ stamp. (column row.now 1 ≡ Blob stamp) × (length stamp ≡ 16)) }
{
    let bytes: Vec<u8> = row.get(1).map_err(fault_of)?;
    match Key::try_from(bytes.as_slice()) {
        Ok(stamp) => Ok(stamp),
        Err(_) => Err(DatabaseFault::BadRow),
    }
}

/// The number of a row, and its record with its stamp.
fn told_by(row: &Row) -> Result<(u32, Entry), DatabaseFault>
    ensures { IfOk result (λ told. TellsEntry row.now told.0 told.1) }
{
    let number: u32 = row.get(0).map_err(fault_of)?;
    let stamp = stamp_of(row)?;
    let count: u32 = row.get(2).map_err(fault_of)?;
    let record: Vec<u8> = row.get(3).map_err(fault_of)?;
    let entry = Entry {
        stamp,
        count,
        record,
    };
    Ok((number, entry))
}

/// Takes a row.
fn load(memory: &mut Memory, row: &Row) -> Result<(), DatabaseFault>
    ensures { OnOk result (TakesRow row.now memory.old memory.new) }
{
    let (number, entry) = told_by(row)?;
    memory.take(number, entry)
}

/// Takes each row.
fn load_all(memory: &mut Memory, rows: &[Row]) -> Result<(), DatabaseFault>
    requires { memory.old ≡ [] }
    ensures { OnOk result (HasRead rows.now memory.new) }
{
    for row in rows {
        load(memory, row)?;
    }
    Ok(())
}

/// Reads all games.
fn read<S: Alter>(alloc: Global, conn: &mut Connection<S>) -> Result<Memory, DatabaseFault>
    ensures mirrors { WhereTrusted (λ old new. old.now.schema ≡ game_schema → IfOk result (λ memory. ReadsGames memory old new)) (state S.Store conn.old) (state S.Store conn.new) }
    ensures outside { conn.old.in_transaction ≡ false → conn.new.in_transaction ≡ false }
    ensures survives { Survives (state S.Store conn.old) (state S.Store conn.new) (λ _. (state S.Store conn.old).now.schema ≢ game_schema) }
{
    let rows = match select(conn) {
        Ok(rows) => rows,
        Err(error) => return Err(DatabaseFault::Sqlite(error)),
    };
    let mut memory = Memory::new(alloc);
    load_all(&mut memory, &rows)?;
    Ok(memory)
}

/// Makes the table where the database has none, and refuses one that has others.
fn make_table<S: Alter>(conn: &mut Connection<S>) -> Result<(), DatabaseFault>
    ensures outside { OnOk result (conn.new.in_transaction ≡ false) }
    ensures ready { HasCleanDisk (state S.Store conn.new) → IsTrue (state S.Store conn.new).is_open → OnOk result (IsReady (state S.Store conn.old) (state S.Store conn.new)) }
    ensures schema { HasCleanDisk (state S.Store conn.new) → OnOk result ((state S.Store conn.new).now.schema ≡ game_schema) }
    ensures survives { Survives (state S.Store conn.old) (state S.Store conn.new) (KeepsCommitted (state S.Store conn.old)) }
{
    if !conn.is_autocommit() {
        return Err(UNCOMMITTED);
    }
    match tables_of(conn.schema()) {
        Tables::Games => Ok(()),
        Tables::Others => Err(DatabaseFault::OtherTables),
        Tables::Nothing => create(conn),
    }
}

/// Makes the table where the database has none, and reads all games.
pub(crate) fn prepare<S: Alter>(
    alloc: Global,
    conn: &mut Connection<S>,
) -> Result<Memory, DatabaseFault>
    ensures outside { OnOk result (conn.new.in_transaction ≡ false) }
    ensures mirrors { HasCleanDisk (state S.Store conn.new) → IfOk result (λ memory. IsTrue (state S.Store conn.new).is_open × Mirrors memory (state S.Store conn.new).committed) }
    ensures found { HasCleanDisk (state S.Store conn.new) → IfOk result (λ memory. HoldsGames (state S.Store conn.old).committed.trees (game_at memory)) }
    ensures lasts { IsTrue (state S.Store conn.new).is_open → (db : _) → (state S.Store conn.new).may_leave db → db ≡ (state S.Store conn.new).committed.trees }
    ensures survives { Survives (state S.Store conn.old) (state S.Store conn.new) (KeepsCommitted (state S.Store conn.old)) }
{
    make_table(conn)?;
    read(alloc, conn)
}
