//! The records of a folder's store, as they are asked for while games are entered.

ghost use Rattle.answer_commands.specs.Inside.StoreReading.{known_of};
ghost use Rattle.answer_commands.specs.StoreReads.{Asks, AsksOnce};
ghost use Rattle.timeline.specs.Outsides.{AddsSome};

use game_reports::{OpenFolder, open_folder};
use std::alloc::Global;
use system_io::Entry;
use timeline::System;

/// The records of a folder's store.
#[derive(Drop)]
pub(crate) enum Records {
    /// Nobody has asked for them.
    Unasked,
    /// They can't be read.
    Unread,
    /// These are they. Of two of one game the later one counts.
    Read(Vec<Entry>),
}

/// Lists a folder and reads its store. That it can't be read is noted, and not that the folder can't be listed or that memory was refused.
fn ask<S: System>(alloc: Global, system: &S, timeline: &mut S::Timeline, folder: &str) -> Records
    ensures { AddsSome (S.outside system.now) timeline.old timeline.new (Asks (S.outside system.now) folder.now (known_of result)) }
{
    match open_folder(alloc, system, timeline, folder) {
        Ok(OpenFolder { entries, .. }) => Records::Read(entries),
        Err(_) => Records::Unread,
    }
}

/// Asks for the records of a folder's store, unless that was done.
pub(crate) fn ask_once<S: System>(
    alloc: Global,
    system: &S,
    timeline: &mut S::Timeline,
    folder: &str,
    records: &mut Records,
)
    ensures { AddsSome (S.outside system.now) timeline.old timeline.new (AsksOnce (S.outside system.now) folder.now (known_of records.old) (known_of records.new)) }
{
    if matches!(records, Records::Unasked) {
        *records = ask(alloc, system, timeline, folder);
    }
}
