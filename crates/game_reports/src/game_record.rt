//! `record --games`: the record of a game in a folder, as it is kept.

ghost use Rattle.std.specs.Prelude.{◌<◌, ◌↔◌, length, IsTrue, OnErr};
ghost use Rattle.answer_parts.specs.Printing.{OutputFails, Performs};
ghost use Rattle.game_reports.specs.GameRecords.{PrintsFiled, PrintsFound, PrintsGameRecord, PrintsStored};
ghost use Rattle.system_io.specs.Disks.{most_bytes};
ghost use Rattle.system_io.specs.Records.{records_of};
ghost use Rattle.timeline.specs.Outsides.{AddsSome};

use crate::printing::print_text;
use crate::store_reading::{found_in, open_folder};
use answer_parts::{Refusal, print_refusal, print_unread};
use arbiter_server::kept_path;
use command_line::GameRecord;
use std::alloc::Global;
use system_io::{Entry, WriteFault};
use timeline::System;

/// The most bytes that a file may have, 2^30.
const MOST_BYTES: usize = 1_073_741_824;

/// Whether bytes are more than a file may have.
fn is_too_long(bytes: &[u8]) -> bool
    ensures { IsTrue result ↔ (most_bytes < length bytes.now) }
{
    bytes.len() > MOST_BYTES
}

/// Writes the bytes of a record that stands in a store, and returns the status.
fn print_stored<S: System>(
    system: &S,
    timeline: &mut S::Timeline,
    bytes: &[u8],
) -> Result<u8, WriteFault>
    ensures made { AddsSome (S.outside system.now) timeline.old timeline.new (Performs (PrintsStored bytes.now) result) }
    ensures cause { OnErr result (OutputFails (S.outside system.now)) }
{
    if is_too_long(bytes) {
        return print_refusal(system, timeline, Refusal::Files);
    }
    print_text(system, timeline, bytes)
}

/// Reads the file of the game's record, writes its bytes, and returns the status.
fn print_filed<S: System>(
    alloc: Global,
    task: &GameRecord<'_>,
    system: &S,
    timeline: &mut S::Timeline,
) -> Result<u8, WriteFault>
    ensures made { AddsSome (S.outside system.now) timeline.old timeline.new (Performs (PrintsFiled (S.outside system.now).disk task.now) result) }
    ensures cause { OnErr result (OutputFails (S.outside system.now)) }
{
    let Ok(path) = kept_path(alloc, task.games, task.stamp) else {
        return print_refusal(system, timeline, Refusal::Memory);
    };
    match system.read(timeline, alloc, path.as_str()) {
        Ok(bytes) => print_text(system, timeline, &bytes),
        Err(fault) => print_unread(system, timeline, fault, 1),
    }
}

/// Writes the bytes of the game's record, that of the store or else of its file, and returns the status.
fn print_kept<S: System>(
    alloc: Global,
    task: &GameRecord<'_>,
    entries: &[Entry],
    system: &S,
    timeline: &mut S::Timeline,
) -> Result<u8, WriteFault>
    ensures made { let o = S.outside system.now in AddsSome o timeline.old timeline.new (Performs (PrintsFound o.disk task.now (records_of entries.now)) result) }
    ensures cause { OnErr result (OutputFails (S.outside system.now)) }
{
    match found_in(entries, task.stamp) {
        Some(bytes) => print_stored(system, timeline, bytes),
        None => print_filed(alloc, task, system, timeline),
    }
}

/// Writes the bytes of the game's record, by the store of its folder where that has it, and returns the status, 0 where there is such a
/// record, else 1.
///
/// `refused files` comes where the folder can't be listed or the record's file can't be read, `refused store` where the store can't, and
/// `refused memory` where memory is refused. The error comes only where the output may fail.
pub fn print_game_record<S: System>(
    alloc: Global,
    task: &GameRecord<'_>,
    system: &S,
    timeline: &mut S::Timeline,
) -> Result<u8, WriteFault>
    ensures made { AddsSome (S.outside system.now) timeline.old timeline.new (Performs (PrintsGameRecord (S.outside system.now) task.now) result) }
    ensures cause { OnErr result (OutputFails (S.outside system.now)) }
{
    match open_folder(alloc, system, timeline, task.games) {
        Ok(folder) => print_kept(alloc, task, &folder.entries, system, timeline),
        Err(refusal) => print_refusal(system, timeline, refusal),
    }
}
