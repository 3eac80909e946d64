//! A batch that is put by one commit.

ghost use Rattle.std.specs.Prelude.{◌≡◌, ◌<◌, ◌^◌, false, length, IsTrue, OnOk, OnErr};
ghost use Rattle.sqlite.specs.State.{ExecutesInside, HasCleanDisk, KeepsCommit, Survives};
ghost use Rattle.sqlite.specs.Held.{state};
ghost use Rattle.game_store.specs.Moments.{InTransaction, WhereTrusted};
ghost use Rattle.game_store.specs.Rows.{game_schema, put_parameters, put_text};
ghost use Rattle.game_store.specs.Slots.{HaveNumbers, number_at};
ghost use Rattle.game_store.specs.Batches.{AreOfBatch, PutsBatch, PutsRow};

use crate::memory::Memory;
use sqlite::{Alter, Connection, Error, Transaction, params};
use system_io::Entry;

/// Runs the text of a put within a transaction.
fn run_put<S: Alter>(
    tx: &mut Transaction<'_, S>,
    number: u32,
    entry: &Entry,
) -> Result<usize, Error>
    ensures fits { (number < 2 ^ 32) × (entry.now.count < 2 ^ 32) × (length entry.now.stamp ≡ 16) }
    ensures same_reference { tx.new.conn.ghost_name ≡ tx.old.conn.ghost_name }
    ensures runs { InTransaction (λ old new. ExecutesInside 0 put_text (put_parameters number entry.now) old new result) (state S.Store tx.old.conn.now) (state S.Store tx.new.conn.now) }
    ensures survives { Survives (state S.Store tx.old.conn.now) (state S.Store tx.new.conn.now) (λ _. ⊥) }
{
    let stamp: &[u8] = &entry.stamp;
    tx.execute(
        "INSERT OR REPLACE INTO game (id, stamp, count, record) VALUES (?1, ?2, ?3, ?4)",
        params![number, stamp, entry.count, &entry.record],
    )
}

/// Puts the record of the game with this number within a transaction.
fn put_one<S: Alter>(
    tx: &mut Transaction<'_, S>,
    number: u32,
    entry: &Entry,
) -> Result<usize, Error>
    ensures fits { (number < 2 ^ 32) × (entry.now.count < 2 ^ 32) × (length entry.now.stamp ≡ 16) }
    ensures same_reference { tx.new.conn.ghost_name ≡ tx.old.conn.ghost_name }
    ensures puts { InTransaction (λ old new. old.now.schema ≡ game_schema → OnOk result (PutsRow number entry.now old new)) (state S.Store tx.old.conn.now) (state S.Store tx.new.conn.now) }
    ensures goes_on { InTransaction (λ old new. OnOk result (IsTrue new.in_transaction)) (state S.Store tx.old.conn.now) (state S.Store tx.new.conn.now) }
    ensures kept { InTransaction KeepsCommit (state S.Store tx.old.conn.now) (state S.Store tx.new.conn.now) }
    ensures survives { Survives (state S.Store tx.old.conn.now) (state S.Store tx.new.conn.now) (λ _. ⊥) }
{
    run_put(tx, number, entry)
}

/// Puts the records in turn within a transaction, up to the first that fails.
fn put_each<S: Alter>(
    tx: &mut Transaction<'_, S>,
    memory: &Memory,
    entries: &[Entry],
) -> Result<(), Error>
    requires { HaveNumbers memory.now entries.now }
    ensures same_reference { tx.new.conn.ghost_name ≡ tx.old.conn.ghost_name }
    ensures becomes { InTransaction (λ old new. PutsBatch (number_at memory.now) entries.now result old.now new.now) (state S.Store tx.old.conn.now) (state S.Store tx.new.conn.now) }
    ensures kept { InTransaction KeepsCommit (state S.Store tx.old.conn.now) (state S.Store tx.new.conn.now) }
    ensures survives { Survives (state S.Store tx.old.conn.now) (state S.Store tx.new.conn.now) (λ _. ⊥) }
{
    for entry in entries {
        let Some(number) = memory.number(&entry.stamp) else {
            unreachable!()
        };
        put_one(tx, number, entry)?;
    }
    Ok(())
}

/// Puts all records or none, by one commit.
pub(crate) fn put<S: Alter>(
    conn: &mut Connection<S>,
    memory: &Memory,
    entries: &[Entry],
) -> Result<(), Error>
    requires outside { conn.old.in_transaction ≡ false }
    requires numbered { HaveNumbers memory.now entries.now }

    // At `Ok` the batch is committed,
    ensures all { WhereTrusted (λ old new. PutsBatch (number_at memory.now) entries.now result old.now new.committed) (state S.Store conn.old) (state S.Store conn.new) }
    ensures open { HasCleanDisk (state S.Store conn.new) → OnOk result (IsTrue (state S.Store conn.new).is_open) }
    ensures was_open { HasCleanDisk (state S.Store conn.new) → IsTrue (state S.Store conn.new).is_open → IsTrue (state S.Store conn.old).is_open }
    // after an error that leaves the database open, nothing is,
    ensures none { HasCleanDisk (state S.Store conn.new) → IsTrue (state S.Store conn.new).is_open
        → OnErr result ((state S.Store conn.new).committed ≡ (state S.Store conn.old).committed) }
    ensures outside { conn.new.in_transaction ≡ false }
    // and a loss of power within the call leaves what it could leave before, or the whole batch. From then on it leaves what is committed.
    ensures crash { Survives (state S.Store conn.old) (state S.Store conn.new) (AreOfBatch (number_at memory.now) entries.now (state S.Store conn.old).now) }
    ensures lasts { IsTrue (state S.Store conn.new).is_open → (db : _) → (state S.Store conn.new).may_leave db → db ≡ (state S.Store conn.new).committed.trees }
{
    let mut tx = conn.transaction();
    put_each(&mut tx, memory, entries)?;
    tx.commit()
}

/// Whether a database still takes a statement, after one that failed.
pub(crate) fn takes_more<S: Alter>(conn: &mut Connection<S>) -> bool
    requires outside { conn.old.in_transaction ≡ false }
    ensures open { HasCleanDisk (state S.Store conn.new) → IsTrue result → IsTrue (state S.Store conn.new).is_open }
    ensures kept { HasCleanDisk (state S.Store conn.new) → KeepsCommit (state S.Store conn.old) (state S.Store conn.new) }
    ensures outside { conn.new.in_transaction ≡ false }
    ensures crash { Survives (state S.Store conn.old) (state S.Store conn.new) (λ _. ⊥) }
{
    match conn.prepare("") {
        Ok(_) => true,
        Err(_) => false,
    }
}
