//! The names in a folder and the records of its store, read over a system while a host may be writing it.
//!
//! Nothing keeps the host from writing between two reads, and no lock is taken. `store_reading` of `game_status` says why what is read is of
//! one moment all the same. Here the order of the reads is in the clauses.

ghost use Rattle.std.specs.Prelude.{◌≡◌, [], map, option_map, string_bytes, IfOk};
ghost use Rattle.game_reports.specs.Inside.StoreReading.{bytes_taken, folder_of, once_taken, opened_or_not, ReadsThis, records_taken, store_bytes};
ghost use Rattle.game_reports.specs.StoreReads.{HoldsRecords, Opens, ReadsBoth, ReadsLog, ReadsOnce, ReadsRecords, ReadsStoreBytes, at_one_moment, unread_words};
ghost use Rattle.system_io.specs.Records.{records_of};
ghost use Rattle.timeline.specs.Events.{bytes_found, bytes_read};
ghost use Rattle.timeline.specs.Outsides.{AddsSome};

use answer_parts::Refusal;
use game_status::{
    MOST_TRIES, STORE_LOG_NAME, STORE_NAME, has_half_store, has_name, head_of, path_in,
};
use move_msg::Stamp;
use std::alloc::{AllocError, Global};
use system_io::{Entry, ReadFault, StoreFault};
use timeline::System;

/// A folder of games as it was opened.
#[derive(Drop)]
pub struct OpenFolder<'a> {
    /// Its path.
    pub path: &'a str,
    /// The names in it.
    pub names: Vec<String>,
    /// The records of its store, of which there are none where it has no store. Of two of one game the later one counts.
    pub entries: Vec<Entry>,
}

/// A folder with the paths of its store, and the line that says that it can't be read.
#[derive(Drop)]
struct StoreWords<'a> {
    folder: &'a str,
    db: String,
    log: String,
    unread: String,
}

/// The bytes of a store's two files.
#[derive(Drop)]
struct StoreFiles {
    db: Vec<u8>,
    log: Vec<u8>,
}

/// The line that says that the store of a folder can't be read. The error comes only where memory is refused.
fn unread_line(alloc: Global, folder: &str) -> Result<String, AllocError>
    ensures { IfOk result (λ line. string_bytes line ≡ unread_words folder.now) }
{
    format!(in alloc;
        "{folder}/games.db can't be read: no store of games, half of one, at fault, or written too often meanwhile"
    )
}

impl<'a> StoreWords<'a> {
    ghost use Rattle.std.specs.Prelude.{◌≡◌, string_bytes, IfOk};
    ghost use Rattle.game_reports.specs.Inside.StoreReading.{folder_of};
    ghost use Rattle.game_reports.specs.StoreReads.{store_of, unread_words};

    /// Those of a folder. The error comes only where memory is refused.
    fn of(alloc: Global, folder: &'a str) -> Result<StoreWords<'a>, AllocError>
        ensures paths { IfOk result (λ w. folder_of w ≡ store_of folder.now) }
        ensures unread { IfOk result (λ w. string_bytes w.unread ≡ unread_words folder.now) }
    {
        let db = path_in(alloc, folder, STORE_NAME)?;
        let log = path_in(alloc, folder, STORE_LOG_NAME)?;
        let unread = unread_line(alloc, folder)?;
        Ok(StoreWords {
            folder,
            db,
            log,
            unread,
        })
    }
}

/// All bytes of a store's log, of which there are none where the folder lists no log.
fn read_log<S: System>(
    alloc: Global,
    system: &S,
    timeline: &mut S::Timeline,
    store: &StoreWords<'_>,
) -> Result<Vec<u8>, ReadFault>
    ensures { AddsSome (S.outside system.now) timeline.old timeline.new (ReadsLog (S.outside system.now).disk (folder_of store.now) (bytes_read result)) }
{
    let names = match system.names(timeline, alloc, store.folder) {
        Ok(names) => names,
        Err(fault) => return Err(fault),
    };
    if !has_name(&names, STORE_LOG_NAME) {
        return Ok(Vec::new(alloc));
    }
    system.read(timeline, alloc, store.log.as_str())
}

/// The bytes of a store's two files, the database's read first.
fn read_both<S: System>(
    alloc: Global,
    system: &S,
    timeline: &mut S::Timeline,
    store: &StoreWords<'_>,
) -> Result<StoreFiles, ReadFault>
    ensures { AddsSome (S.outside system.now) timeline.old timeline.new (ReadsBoth (S.outside system.now).disk (folder_of store.now) (bytes_taken result)) }
{
    let db = match system.read(timeline, alloc, store.db.as_str()) {
        Ok(db) => db,
        Err(fault) => return Err(fault),
    };
    match read_log(alloc, system, timeline, store) {
        Ok(log) => Ok(StoreFiles { db, log }),
        Err(fault) => Err(fault),
    }
}

/// Files, if they are of one moment, by the log as it was before they were read and after.
fn of_one_moment(before: &[u8], files: StoreFiles, after: &[u8]) -> Option<StoreFiles>
    ensures { option_map store_bytes result ≡ at_one_moment before.now (store_bytes files) after.now }
{
    if head_of(before) == head_of(&files.log) && head_of(&files.log) == head_of(after) {
        Some(files)
    } else {
        None
    }
}

/// The bytes of a store's two files as they were at one moment; none where the log began anew meanwhile.
fn read_once<S: System>(
    alloc: Global,
    system: &S,
    timeline: &mut S::Timeline,
    store: &StoreWords<'_>,
) -> Result<Option<StoreFiles>, ReadFault>
    ensures { AddsSome (S.outside system.now) timeline.old timeline.new (ReadsOnce (S.outside system.now).disk (folder_of store.now) (once_taken result)) }
{
    let before = match read_log(alloc, system, timeline, store) {
        Ok(before) => before,
        Err(fault) => return Err(fault),
    };
    let files = match read_both(alloc, system, timeline, store) {
        Ok(files) => files,
        Err(fault) => return Err(fault),
    };
    match read_log(alloc, system, timeline, store) {
        Ok(after) => Ok(of_one_moment(&before, files, &after)),
        Err(fault) => Err(fault),
    }
}

/// The bytes of a store's two files as they were at one moment. It tries eight times, and they are `Unreadable` then.
fn read_files<S: System>(
    alloc: Global,
    system: &S,
    timeline: &mut S::Timeline,
    store: &StoreWords<'_>,
) -> Result<StoreFiles, ReadFault>
    ensures { AddsSome (S.outside system.now) timeline.old timeline.new (ReadsStoreBytes (S.outside system.now).disk (folder_of store.now) (bytes_taken result)) }
{
    for _ in 0..MOST_TRIES {
        match read_once(alloc, system, timeline, store) {
            Ok(Some(files)) => return Ok(files),
            Ok(None) => {}
            Err(fault) => return Err(fault),
        }
    }
    Err(ReadFault::Unreadable)
}

/// The records that two files hold.
fn records_held<S: System>(
    alloc: Global,
    system: &S,
    files: StoreFiles,
) -> Result<Vec<Entry>, ReadFault>
    ensures { HoldsRecords (S.outside system.now).stores (store_bytes files) (records_taken result) [] }
{
    let StoreFiles { db, log } = files;
    match system.stored(alloc, db, log) {
        Ok(entries) => Ok(entries),
        Err(StoreFault::Unreadable) => Err(ReadFault::Unreadable),
        Err(StoreFault::OutOfMemory) => Err(ReadFault::OutOfMemory),
    }
}

/// The records of a whole store.
fn read_records<S: System>(
    alloc: Global,
    system: &S,
    timeline: &mut S::Timeline,
    store: &StoreWords<'_>,
) -> Result<Vec<Entry>, ReadFault>
    ensures { AddsSome (S.outside system.now) timeline.old timeline.new (ReadsRecords (S.outside system.now) (folder_of store.now) (records_taken result)) }
{
    match read_files(alloc, system, timeline, store) {
        Ok(files) => records_held(alloc, system, files),
        Err(fault) => Err(fault),
    }
}

/// The records of the store of a folder with these names: none where there is no store, and `Unreadable` where there is half of one.
fn read_store<S: System>(
    alloc: Global,
    system: &S,
    timeline: &mut S::Timeline,
    store: &StoreWords<'_>,
    names: &[String],
) -> Result<Vec<Entry>, ReadFault>
    ensures { let o = S.outside system.now in AddsSome o timeline.old timeline.new (ReadsThis o store.now (map string_bytes names.now) result) }
{
    if has_half_store(names) {
        return Err(ReadFault::Unreadable);
    }
    if !has_name(names, STORE_NAME) {
        return Ok(Vec::new(alloc));
    }
    read_records(alloc, system, timeline, store)
}

/// Lists a folder once, and reads its store.
///
/// `Files` where it can't be listed. `Store` where it has half of a store, or one that can't be read, which is noted: the files are gone
/// since they were listed, are none of a store, or were written at each of eight tries. `Memory` where memory is refused.
pub fn open_folder<'a, S: System>(
    alloc: Global,
    system: &S,
    timeline: &mut S::Timeline,
    path: &'a str,
) -> Result<OpenFolder<'a>, Refusal>
    ensures { AddsSome (S.outside system.now) timeline.old timeline.new (Opens (S.outside system.now) path.now (opened_or_not result)) }
{
    let Ok(store) = StoreWords::of(alloc, path) else {
        return Err(Refusal::Memory);
    };
    let names = match system.names(timeline, alloc, path) {
        Ok(names) => names,
        Err(fault) => return Err(Refusal::unread(fault)),
    };
    match read_store(alloc, system, timeline, &store, &names) {
        Ok(entries) => Ok(OpenFolder {
            path,
            names,
            entries,
        }),
        Err(ReadFault::Unreadable) => {
            system.note(timeline, &[store.unread.as_str()]);
            Err(Refusal::Store)
        }
        Err(ReadFault::OutOfMemory) => Err(Refusal::Memory),
    }
}

/// The bytes of the record of a game among those of a store. Of two the later one counts.
pub fn found_in<'a>(entries: &'a [Entry], stamp: Stamp) -> Option<&'a [u8]>
    ensures { bytes_found result ≡ option_map (λ r. r.bytes) (records_of entries.now stamp) }
{
    let mut found = None;
    for entry in entries {
        if entry.stamp == stamp.0 {
            found = Some(entry.record.as_slice());
        }
    }
    found
}
