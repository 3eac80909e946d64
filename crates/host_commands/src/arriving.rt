//! The record in the file of a game, which may go over into a store.

ghost use Rattle.std.specs.Prelude.{◌≡◌, ◌≢◌, None, IfOk, MatchOption};
ghost use Rattle.game_status.specs.Imports.{IsEntryOf, IsNoRecordOf};
ghost use Rattle.host_commands.specs.Inside.Importing.{ReadsInFolder, ReadsRecord, SeesGame};
ghost use Rattle.timeline.specs.Outsides.{AddsSome};

use answer_parts::Refusal;
use arbiter_server::kept_path;
use move_msg::{Record, RecordFault, Stamp};
use std::alloc::{AllocError, Global};
use system_io::{Entry, MOST_KEPT_BYTES, ReadFault};
use timeline::System;

/// What comes of bytes that aren't decoded, where that isn't for want of memory: no record.
fn undecoded(fault: RecordFault) -> Result<Option<Entry>, AllocError>
    ensures ok { IfOk result (λ found. (found ≡ None) × (fault ≢ RecordFault.OutOfMemory)) }
{
    match fault {
        RecordFault::OutOfMemory => Err(AllocError),
        RecordFault::BadLength | RecordFault::BadHead | RecordFault::BadField => Ok(None),
    }
}

/// The bytes of a file as the record of the game with this stamp. None where they are no record of it.
fn entry_of(alloc: Global, stamp: Stamp, record: Vec<u8>) -> Result<Option<Entry>, AllocError>
    ensures { IfOk result (λ found. MatchOption found (IsNoRecordOf stamp record.items) (IsEntryOf stamp record.items)) }
{
    let read = match Record::decode(alloc, &record) {
        Ok(read) => read,
        Err(fault) => return undecoded(fault),
    };
    if read.stamp != stamp {
        return Ok(None);
    }
    Ok(Some(Entry {
        stamp: *stamp.as_bytes(),
        count: read.moves.as_slice().len() as u32,
        record,
    }))
}

/// The record at a path, as it stands there. None where the file holds no record of the game with this stamp.
fn record_at<S: System>(
    alloc: Global,
    system: &S,
    timeline: &mut S::Timeline,
    path: &str,
    stamp: Stamp,
) -> Result<Option<Entry>, Refusal>
    ensures { AddsSome (S.outside system.now) timeline.old timeline.new (ReadsRecord (S.outside system.now) path.now stamp result) }
{
    let record = match system.read_within(timeline, alloc, path, MOST_KEPT_BYTES as u64) {
        Ok(record) => record,
        Err(ReadFault::Unreadable) => return Err(Refusal::Keeper),
        Err(ReadFault::OutOfMemory) => return Err(Refusal::Memory),
    };
    match entry_of(alloc, stamp, record) {
        Ok(found) => Ok(found),
        Err(_) => Err(Refusal::Memory),
    }
}

/// The record in the file of a game, as it stands there. None where the file holds no record of the game.
fn record_in<S: System>(
    alloc: Global,
    system: &S,
    timeline: &mut S::Timeline,
    folder: &str,
    stamp: Stamp,
) -> Result<Option<Entry>, Refusal>
    ensures { AddsSome (S.outside system.now) timeline.old timeline.new (ReadsInFolder (S.outside system.now) folder.now stamp result) }
{
    match kept_path(alloc, folder, stamp) {
        Ok(path) => record_at(alloc, system, timeline, path.as_str(), stamp),
        Err(_) => Err(Refusal::Memory),
    }
}

/// What is found of a game whose record is listed as a file.
#[derive(Drop)]
pub(crate) enum Seen {
    /// The store has a record of it.
    InStore,
    /// The store has none, and the file has this one.
    InFile(Entry),
    /// Nor has the file.
    InNeither,
}

/// Looks for the record of a game in a store, and where that has none in its file.
pub(crate) fn look_at<S: System>(
    alloc: Global,
    system: &S,
    timeline: &mut S::Timeline,
    folder: &str,
    store: &S::Store,
    stamp: Stamp,
) -> Result<Seen, Refusal>
    ensures { AddsSome (S.outside system.now) timeline.old timeline.new (SeesGame (S.outside system.now) folder.now store.now stamp result) }
{
    if system.find(timeline, store, stamp.as_bytes()).is_some() {
        return Ok(Seen::InStore);
    }
    match record_in(alloc, system, timeline, folder, stamp) {
        Ok(Some(entry)) => Ok(Seen::InFile(entry)),
        Ok(None) => Ok(Seen::InNeither),
        Err(refusal) => Err(refusal),
    }
}
