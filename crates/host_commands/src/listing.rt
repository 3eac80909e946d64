//! The folder of the games that `host` serves, as it is listed.

ghost use Rattle.std.specs.Prelude.{◌≡◌, List, ℕ, map, string_bytes, IfNone, IfOk, IfSome};
ghost use Rattle.host_commands.specs.Listings.{Clashes, ListsGames, clash_line};
ghost use Rattle.host_commands.specs.Notes.{MayNote, in_words};
ghost use Rattle.timeline.specs.Outsides.{AddsSome};

use crate::noting::note_line;
use answer_parts::Refusal;
use command_line::StoreForm;
use game_status::{STORE_NAME, has_half_store, has_name};
use std::alloc::{AllocError, Global};
use timeline::System;

/// What a folder with half of a store has.
const HALF_STORE: &str = "games.db-wal without games.db, or games.db-journal: half of a store";

/// What a folder has that keeps records in a store, where they are to be in files.
const UNWANTED_STORE: &str = "games.db, and --store is files";

/// What of these names bars a folder from being served, if anything does: it has half of a store, or one, and records are to be in files.
fn clash_of(names: &[String], form: StoreForm) -> Option<&'static str>
    ensures some { IfSome result (λ what. Clashes form (map string_bytes names.now) what.now) }
    ensures none { IfNone result ((what : List ℕ) → Clashes form (map string_bytes names.now) what → ⊥) }
{
    if has_half_store(names) {
        return Some(HALF_STORE);
    }
    match form {
        StoreForm::Files if has_name(names, STORE_NAME) => Some(UNWANTED_STORE),
        StoreForm::Files | StoreForm::Sqlite => None,
    }
}

/// The line that says what bars a folder. The error comes only where memory is refused.
fn clash_words(alloc: Global, folder: &str, clash: &str) -> Result<String, AllocError>
    ensures { IfOk result (λ line. string_bytes line ≡ clash_line folder.now clash.now) }
{
    format!(in alloc; "{folder} has {clash}")
}

/// Notes what bars a folder.
fn note_clash<S: System>(
    alloc: Global,
    system: &S,
    timeline: &mut S::Timeline,
    folder: &str,
    clash: &str,
)
    ensures { AddsSome (S.outside system.now) timeline.old timeline.new (MayNote (clash_line folder.now clash.now)) }
{
    note_line(system, timeline, clash_words(alloc, folder, clash));
}

/// Lists a folder of games: what can't be listed is no such folder. One with a store that wouldn't be used, or with a half of one, is
/// refused, and a line is noted that says so.
pub(crate) fn list_games<S: System>(
    alloc: Global,
    system: &S,
    timeline: &mut S::Timeline,
    folder: &str,
    form: StoreForm,
) -> Result<(), Refusal>
    ensures { AddsSome (S.outside system.now) timeline.old timeline.new (ListsGames (S.outside system.now).disk folder.now form (in_words result)) }
{
    let names = match system.names(timeline, alloc, folder) {
        Ok(names) => names,
        Err(fault) => return Err(Refusal::unread(fault)),
    };
    match clash_of(&names, form) {
        Some(clash) => {
            note_clash(alloc, system, timeline, folder, clash);
            Err(Refusal::Store)
        }
        None => Ok(()),
    }
}
