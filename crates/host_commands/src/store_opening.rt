//! The games of a folder whose records are kept in its store.

ghost use Rattle.std.specs.Prelude.{string_bytes, IfOk};
ghost use Rattle.arbiter_server.specs.GameFolders.{kept_path};
ghost use Rattle.game_status.specs.StoreReadings.{store_path};
ghost use Rattle.host_commands.specs.Hosts.{KeepsInStore, OpensGames, OpensStoreIf};
ghost use Rattle.host_commands.specs.Imports.{IsLeftLine, NotesAllLeft, NotesLeft, OpensStore};
ghost use Rattle.host_commands.specs.Notes.{in_words};
ghost use Rattle.system_io.specs.Records.{IsSettled};
ghost use Rattle.timeline.specs.Outsides.{AddsSome};

use crate::importing::import_records;
use crate::noting::note_line;
use answer_parts::Refusal;
use arbiter_server::kept_path;
use command_line::StoreForm;
use game_folder::StoreGames;
use game_status::{STORE_NAME, path_in};
use move_msg::Stamp;
use std::alloc::{AllocError, Global};
use system_io::StoreFault;
use timeline::System;

/// Opens the store at a path.
fn store_at<S: System>(
    alloc: Global,
    system: &S,
    timeline: &mut S::Timeline,
    path: &str,
) -> Result<S::Store, Refusal>
    ensures made { AddsSome (S.outside system.now) timeline.old timeline.new (OpensStore (S.outside system.now) path.now (in_words result)) }
    ensures settled { IfOk result (λ store. IsSettled ((S.outside system.now).store store)) }
{
    match system.store(timeline, alloc, path) {
        Ok(store) => Ok(store),
        Err(StoreFault::Unreadable) => Err(Refusal::Store),
        Err(StoreFault::OutOfMemory) => Err(Refusal::Memory),
    }
}

/// Opens the store of a folder of games.
fn open_store<S: System>(
    alloc: Global,
    system: &S,
    timeline: &mut S::Timeline,
    folder: &str,
) -> Result<S::Store, Refusal>
    ensures made { AddsSome (S.outside system.now) timeline.old timeline.new (OpensStore (S.outside system.now) (store_path folder.now) (in_words result)) }
    ensures settled { IfOk result (λ store. IsSettled ((S.outside system.now).store store)) }
{
    match path_in(alloc, folder, STORE_NAME) {
        Ok(path) => store_at(alloc, system, timeline, path.as_str()),
        Err(_) => Err(Refusal::Memory),
    }
}

/// The note on a file that holds no record of its game. The error comes only where memory is refused.
fn left_words(alloc: Global, folder: &str, stamp: Stamp) -> Result<String, AllocError>
    ensures { IfOk result (λ line. IsLeftLine (kept_path folder.now stamp) (string_bytes line)) }
{
    let path = kept_path(alloc, folder, stamp)?;
    format!(in alloc; "{path:?}: no record of its game, which is refused")
}

/// Notes that the file of a game holds no record of it, and so stays.
fn note_one_left<S: System>(
    alloc: Global,
    system: &S,
    timeline: &mut S::Timeline,
    folder: &str,
    stamp: Stamp,
)
    ensures { AddsSome (S.outside system.now) timeline.old timeline.new (NotesLeft (kept_path folder.now stamp)) }
{
    note_line(system, timeline, left_words(alloc, folder, stamp));
}

/// Notes whose files hold no record of their games.
fn note_left<S: System>(
    alloc: Global,
    system: &S,
    timeline: &mut S::Timeline,
    folder: &str,
    left: &[Stamp],
)
    ensures { AddsSome (S.outside system.now) timeline.old timeline.new (NotesAllLeft folder.now left.now) }
{
    for stamp in left {
        note_one_left(alloc, system, timeline, folder, *stamp);
    }
}

/// Lets the records of files go over into a store that hasn't them, notes which files stay, and keeps the records of the games there.
fn games_over<'f, S: System>(
    alloc: Global,
    system: &S,
    timeline: &mut S::Timeline,
    folder: &'f str,
    store: S::Store,
) -> Result<StoreGames<'f, S>, Refusal>
    requires settled { IsSettled ((S.outside system.now).store store) }
    ensures { AddsSome (S.outside system.now) timeline.old timeline.new (KeepsInStore (S.outside system.now) folder.entry.now store (in_words result)) }
{
    let mut store = store;
    match import_records(alloc, system, timeline, folder, &mut store) {
        Ok(left) => {
            note_left(alloc, system, timeline, folder, &left);
            Ok(StoreGames::over(alloc, folder, store, left))
        }
        Err(refusal) => Err(refusal),
    }
}

/// Opens the store of the folder, lets the records of files go over into it that it hasn't, and notes which files hold none. A store that
/// can't be opened or written is refused as `Store`, a record that can't be read as `Keeper`.
fn open_games<'f, S: System>(
    alloc: Global,
    system: &S,
    timeline: &mut S::Timeline,
    folder: &'f str,
) -> Result<StoreGames<'f, S>, Refusal>
    ensures { AddsSome (S.outside system.now) timeline.old timeline.new (OpensGames (S.outside system.now) folder.entry.now (in_words result)) }
{
    match open_store(alloc, system, timeline, folder) {
        Ok(store) => games_over(alloc, system, timeline, folder, store),
        Err(refusal) => Err(refusal),
    }
}

/// Opens the store of the folder, where the records of its games are kept in one.
pub(crate) fn open_kept<'f, S: System>(
    alloc: Global,
    system: &S,
    timeline: &mut S::Timeline,
    folder: &'f str,
    form: StoreForm,
) -> Result<Option<StoreGames<'f, S>>, Refusal>
    ensures { AddsSome (S.outside system.now) timeline.old timeline.new (OpensStoreIf (S.outside system.now) folder.entry.now form (in_words result)) }
{
    match form {
        StoreForm::Files => Ok(None),
        StoreForm::Sqlite => match open_games(alloc, system, timeline, folder) {
            Ok(games) => Ok(Some(games)),
            Err(refusal) => Err(refusal),
        },
    }
}
