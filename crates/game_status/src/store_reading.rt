//! What a folder's store is read by while a host may be writing it: the names of its files, and what a log begins with.
//!
//! Nothing keeps the host from writing between two reads, and no lock is taken. What is read is of one moment all the same. A host
//! writes pages to the log first. A checkpoint then copies them into the database, and they stand in the log as well until it begins
//! anew, with other salts in its head. So where the log has one head before the database is read and after it, each page that a
//! checkpoint copied in between stands in the log that is read after it too. The database and that log together are what a stop after
//! the last whole commit of that log leaves. That a third read finds this head shows that the log didn't begin anew while it was read.
//! A host never deletes its log, so one that is empty each time was not begun. The reads, and the clauses on their order, are those of
//! `store_reading` of `game_reports`.

ghost use Rattle.std.specs.Prelude.{◌≡◌, ◌↔◌, map, string_bytes, IfOk, IsTrue};
ghost use Rattle.std.specs.List.{Contains};
ghost use Rattle.game_status.specs.StoreReadings.{HasHalfStore, log_head, path_in};

use std::alloc::{AllocError, Global};

/// The name of a store's database, in the folder whose records it keeps.
pub const STORE_NAME: &str = "games.db";

/// The name of the log beside it.
pub const STORE_LOG_NAME: &str = "games.db-wal";

/// The name of the journal that SQLite leaves beside it, where it was stopped while it wrote the database without a log.
const STORE_JOURNAL_NAME: &str = "games.db-journal";

/// How many bytes the head of a log has.
const LOG_HEAD: usize = 32;

/// How often the files of a store are read at most.
pub const MOST_TRIES: usize = 8;

/// The path of a file in a folder. The error comes only where memory is refused.
pub fn path_in(alloc: Global, folder: &str, name: &str) -> Result<String, AllocError>
    ensures { IfOk result (λ path. string_bytes path ≡ path_in folder.now name.now) }
{
    let mut path = String::from_str(alloc, folder)?;
    path.push_str("/")?;
    path.push_str(name)?;
    Ok(path)
}

/// Whether a name is among these.
pub fn has_name(names: &[String], name: &str) -> bool
    ensures { IsTrue result ↔ Contains (map string_bytes names.now) name.now }
{
    names.iter().any(|listed| listed.as_str() == name)
}

/// Whether half of a store is among these names: the log without the database; or a journal, without which the database isn't what it
/// was.
pub fn has_half_store(names: &[String]) -> bool
    ensures { IsTrue result ↔ HasHalfStore (map string_bytes names.now) }
{
    let has_log_alone = has_name(names, STORE_LOG_NAME) && !has_name(names, STORE_NAME);
    has_log_alone || has_name(names, STORE_JOURNAL_NAME)
}

/// What a log begins with, which changes when it begins anew: its first 32 bytes, or all where it has fewer.
pub fn head_of(log: &[u8]) -> &[u8]
    ensures { result.now ≡ log_head log.now }
{
    &log[..LOG_HEAD.min(log.len())]
}
