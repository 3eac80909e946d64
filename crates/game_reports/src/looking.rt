//! What is found of one game: its file and its record in a folder, or in two, read over a system.

ghost use Rattle.std.specs.Prelude.{◌≡◌, option_map, IfOk};
ghost use Rattle.arbiter_server.specs.GameFolders.{game_path, kept_path, most_game_bytes};
ghost use Rattle.game_reports.specs.GameLooks.{ReadsEntry, ReadsSide, lack_of};
ghost use Rattle.game_reports.specs.Inside.Asking.{LookAlone};
ghost use Rattle.game_reports.specs.Inside.Looking.{LookBeside, LookIn, RecordIn, SeeksFile, found_lacking, found_or_none};
ghost use Rattle.game_reports.specs.Inside.Opening.{known_folder};
ghost use Rattle.game_status.specs.Entries.{most_kept};
ghost use Rattle.game_status.specs.GameAudits.{AreFewDelays};
ghost use Rattle.game_status.specs.StatusObjects.{AreNamed};
ghost use Rattle.timeline.specs.Outsides.{AddsSome};

use crate::folders::{GameFolder, GameFolders};
use arbiter_server::{MOST_GAME_BYTES, game_path, kept_path, read_game};
use game_status::{Entry, EntryFault, Look, Side, copy_within, look_at_both, side_of};
use move_msg::Stamp;
use std::alloc::{AllocError, Global};
use system_io::{MOST_KEPT_BYTES, ReadFault};
use timeline::System;

/// Why it isn't known how far a folder has come with a game.
#[derive(Clone, Copy)]
pub(crate) enum Lack {
    /// Something of the game is at fault.
    AtFault(EntryFault),
    /// Memory was refused.
    NoRoom,
}

/// What a file is lacking that can't be read, where that is this fault.
fn lack_of(at_fault: EntryFault, fault: ReadFault) -> Lack
    ensures { result ≡ lack_of at_fault fault }
{
    match fault {
        ReadFault::Unreadable => Lack::AtFault(at_fault),
        ReadFault::OutOfMemory => Lack::NoRoom,
    }
}

/// Looks for the file of a game.
fn seek_game<S: System>(
    alloc: Global,
    system: &S,
    timeline: &mut S::Timeline,
    folder: &str,
    stamp: Stamp,
) -> Result<Vec<u8>, ReadFault>
    ensures { AddsSome (S.outside system.now) timeline.old timeline.new (SeeksFile (S.outside system.now) (game_path folder.now stamp) most_game_bytes result) }
{
    let Ok(path) = game_path(alloc, folder, stamp) else {
        return Err(ReadFault::OutOfMemory);
    };
    system.look_within(timeline, alloc, path.as_str(), MOST_GAME_BYTES as u64)
}

/// Looks for the file of a game's record.
fn seek_record<S: System>(
    alloc: Global,
    system: &S,
    timeline: &mut S::Timeline,
    folder: &str,
    stamp: Stamp,
) -> Result<Vec<u8>, ReadFault>
    ensures { AddsSome (S.outside system.now) timeline.old timeline.new (SeeksFile (S.outside system.now) (kept_path folder.now stamp) most_kept result) }
{
    let Ok(path) = kept_path(alloc, folder, stamp) else {
        return Err(ReadFault::OutOfMemory);
    };
    system.look_within(timeline, alloc, path.as_str(), MOST_KEPT_BYTES as u64)
}

/// The bytes of a game's record, if the folder lists its file.
fn read_listed<S: System>(
    alloc: Global,
    system: &S,
    timeline: &mut S::Timeline,
    folder: &GameFolder<'_>,
    stamp: Stamp,
) -> Result<Option<Vec<u8>>, ReadFault>
    requires { (known_folder folder.now).records stamp ≡ None }
    ensures { AddsSome (S.outside system.now) timeline.old timeline.new (RecordIn (S.outside system.now) folder.now stamp result) }
{
    if !folder.kept.contains(&stamp) {
        return Ok(None);
    }
    match seek_record(alloc, system, timeline, folder.path, stamp) {
        Ok(bytes) => Ok(Some(bytes)),
        Err(fault) => Err(fault),
    }
}

/// The bytes of a game's record: those in the folder's store, or else those of its file, if the folder lists one.
fn read_record<S: System>(
    alloc: Global,
    system: &S,
    timeline: &mut S::Timeline,
    folder: &GameFolder<'_>,
    stamp: Stamp,
) -> Result<Option<Vec<u8>>, ReadFault>
    ensures { AddsSome (S.outside system.now) timeline.old timeline.new (RecordIn (S.outside system.now) folder.now stamp result) }
{
    let Some(record) = folder.records.get(&stamp) else {
        return read_listed(alloc, system, timeline, folder, stamp);
    };
    match copy_within(alloc, record, MOST_KEPT_BYTES as u64) {
        Ok(bytes) => Ok(Some(bytes)),
        Err(fault) => Err(fault),
    }
}

/// What a folder has of a game: its file, and then its record where the file tells a game.
fn read_entry<S: System>(
    alloc: Global,
    system: &S,
    timeline: &mut S::Timeline,
    folder: &GameFolder<'_>,
    stamp: Stamp,
) -> Result<Entry, Lack>
    ensures { AddsSome (S.outside system.now) timeline.old timeline.new (ReadsEntry (S.outside system.now).disk (known_folder folder.now) stamp result) }
{
    let text = match seek_game(alloc, system, timeline, folder.path, stamp) {
        Ok(text) => text,
        Err(fault) => return Err(lack_of(EntryFault::NoGame, fault)),
    };
    let game = match read_game(&text) {
        Ok(game) => game,
        Err(fault) => return Err(Lack::AtFault(EntryFault::BadGame(fault))),
    };
    match read_record(alloc, system, timeline, folder, stamp) {
        Ok(kept) => Ok(Entry { game, kept }),
        Err(fault) => Err(lack_of(EntryFault::Keeper, fault)),
    }
}

/// How far a folder has come with a game.
fn read_side<S: System>(
    alloc: Global,
    system: &S,
    timeline: &mut S::Timeline,
    folder: &GameFolder<'_>,
    stamp: Stamp,
) -> Result<Side, Lack>
    ensures { AddsSome (S.outside system.now) timeline.old timeline.new (ReadsSide (S.outside system.now).disk (known_folder folder.now) stamp result) }
{
    let entry = match read_entry(alloc, system, timeline, folder, stamp) {
        Ok(entry) => entry,
        Err(lack) => return Err(lack),
    };
    match side_of(alloc, entry, stamp) {
        Ok(Ok(side)) => Ok(side),
        Ok(Err(fault)) => Err(Lack::AtFault(fault)),
        Err(_) => Err(Lack::NoRoom),
    }
}

/// What is found of a game of which the first folder has this, and the second has the rest.
fn look_beside<S: System>(
    alloc: Global,
    system: &S,
    timeline: &mut S::Timeline,
    one: Side,
    folder: &GameFolder<'_>,
    stamp: Stamp,
) -> Result<Look, AllocError>
    ensures { AddsSome (S.outside system.now) timeline.old timeline.new (LookBeside (S.outside system.now) one folder.now stamp result) }
{
    match read_side(alloc, system, timeline, folder, stamp) {
        Ok(other) => Ok(look_at_both(one, other)),
        Err(Lack::AtFault(fault)) => Ok(Look::OtherAtFault(fault)),
        Err(Lack::NoRoom) => Err(AllocError),
    }
}

/// What is found of a game of which the first folder lacks this. The error comes where memory was refused.
fn look_lacking(lack: Lack) -> Result<Look, AllocError>
    ensures { found_or_none result ≡ found_lacking lack }
{
    match lack {
        Lack::AtFault(fault) => Ok(Look::AtFault(fault)),
        Lack::NoRoom => Err(AllocError),
    }
}

/// What is found of a game in the first folder alone. The error comes only where memory is refused.
fn read_first<S: System>(
    alloc: Global,
    system: &S,
    timeline: &mut S::Timeline,
    folders: &GameFolders<'_>,
    stamp: Stamp,
) -> Result<Look, AllocError>
    ensures { AddsSome (S.outside system.now) timeline.old timeline.new (LookAlone (S.outside system.now) folders.now stamp result) }
{
    match read_side(alloc, system, timeline, &folders.one, stamp) {
        Ok(one) => Ok(Look::One(one)),
        Err(lack) => look_lacking(lack),
    }
}

/// What is found of a game in the first folder alone. The error comes only where memory is refused.
pub(crate) fn look_at_first<S: System>(
    alloc: Global,
    system: &S,
    timeline: &mut S::Timeline,
    folders: &GameFolders<'_>,
    stamp: Stamp,
) -> Result<Look, AllocError>
    ensures made { AddsSome (S.outside system.now) timeline.old timeline.new (LookAlone (S.outside system.now) folders.now stamp result) }
    ensures named { IfOk result AreNamed }
{
    read_first(alloc, system, timeline, folders, stamp)
}

/// What is found of a game. The error comes only where memory is refused; what is read of the game ends there.
fn read_look<S: System>(
    alloc: Global,
    system: &S,
    timeline: &mut S::Timeline,
    folders: &GameFolders<'_>,
    stamp: Stamp,
) -> Result<Look, AllocError>
    ensures { AddsSome (S.outside system.now) timeline.old timeline.new (LookIn (S.outside system.now) folders.now stamp result) }
{
    let one = match read_side(alloc, system, timeline, &folders.one, stamp) {
        Ok(one) => one,
        Err(lack) => return look_lacking(lack),
    };
    match &folders.other {
        None => Ok(Look::One(one)),
        Some(folder) => look_beside(alloc, system, timeline, one, folder, stamp),
    }
}

/// What is found of a game: of the first folder its file and its record are read, and then, where nothing is at fault there, of the second
/// one. The error comes only where memory is refused; what is read of the game ends there.
pub(crate) fn look_at_game<S: System>(
    alloc: Global,
    system: &S,
    timeline: &mut S::Timeline,
    folders: &GameFolders<'_>,
    stamp: Stamp,
) -> Result<Look, AllocError>
    ensures made { AddsSome (S.outside system.now) timeline.old timeline.new (LookIn (S.outside system.now) folders.now stamp result) }
    ensures named { IfOk result AreNamed }
    ensures few { IfOk result AreFewDelays }
{
    read_look(alloc, system, timeline, folders, stamp)
}
