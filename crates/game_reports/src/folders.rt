//! Folders of games, by what was read of them before any game is.

ghost use Rattle.std.specs.Prelude.{◌≡◌, ℕ, List, map, option_map, string_bytes, IfOk, OnOk};
ghost use Rattle.arbiter_server.specs.StoreGames.{bytes_at};
ghost use Rattle.game_reports.specs.Folders.{AreKnownBy, IsKnownBy, IsOtherKnownBy, OpensBoth, OpensGames, OpensOther, names_in};
ghost use Rattle.game_reports.specs.Inside.Opening.{both_of, both_or_not, games_or_not, known_folder, known_folders, other_opened, other_or_not};
ghost use Rattle.game_reports.specs.Inside.StoreReading.{opened_of};
ghost use Rattle.game_status.specs.Listings.{AddsStamps, game_ending};
ghost use Rattle.game_status.specs.StoredDisks.{bytes_in};
ghost use Rattle.system_io.specs.Records.{records_of};
ghost use Rattle.task_files.specs.Sources.{path_named};
ghost use Rattle.timeline.specs.Outsides.{AddsSome};

use crate::store_reading::{OpenFolder, open_folder};
use answer_parts::Refusal;
use game_status::{add_stamps, keep, rising};
use move_msg::Stamp;
use std::alloc::{AllocError, Global};
use std::collections::{BTreeMap, BTreeSet};
use system_io::Entry;
use timeline::System;

/// What is known of a folder of games.
#[derive(Drop)]
pub(crate) struct GameFolder<'a> {
    /// Its path.
    pub(crate) path: &'a str,
    /// The stamps of the records that it lists as files.
    pub(crate) kept: BTreeSet<Stamp>,
    /// The records of its store.
    pub(crate) records: BTreeMap<Stamp, Vec<u8>>,
}

/// What is known of folders of games.
#[derive(Drop)]
pub(crate) struct GameFolders<'a> {
    /// The first.
    pub(crate) one: GameFolder<'a>,
    /// The second, if it is named.
    pub(crate) other: Option<GameFolder<'a>>,
    /// The stamps of all games of both, in rising order, each once.
    pub(crate) stamps: Vec<Stamp>,
}

/// Folders of games as they were opened.
#[derive(Drop)]
struct OpenFolders<'a> {
    one: OpenFolder<'a>,
    other: Option<OpenFolder<'a>>,
}

/// Opens a second folder, if one is named.
fn open_other<'a, S: System>(
    alloc: Global,
    system: &S,
    timeline: &mut S::Timeline,
    path: Option<&'a str>,
) -> Result<Option<OpenFolder<'a>>, Refusal>
    ensures { let o = S.outside system.now in AddsSome o timeline.old timeline.new (OpensOther o (path_named path.entry) (other_or_not result)) }
{
    match path {
        None => Ok(None),
        Some(path) => match open_folder(alloc, system, timeline, path) {
            Ok(folder) => Ok(Some(folder)),
            Err(refusal) => Err(refusal),
        },
    }
}

/// Opens a folder, and then a second one, if it is named.
fn open_both<'a, S: System>(
    alloc: Global,
    system: &S,
    timeline: &mut S::Timeline,
    folder: &'a str,
    other: Option<&'a str>,
) -> Result<OpenFolders<'a>, Refusal>
    ensures { let o = S.outside system.now in AddsSome o timeline.old timeline.new (OpensBoth o folder.now (path_named other.entry) (both_or_not result)) }
{
    let one = match open_folder(alloc, system, timeline, folder) {
        Ok(one) => one,
        Err(refusal) => return Err(refusal),
    };
    match open_other(alloc, system, timeline, other) {
        Ok(other) => Ok(OpenFolders { one, other }),
        Err(refusal) => Err(refusal),
    }
}

/// The records of a store by their stamps.
fn records_by_stamp(
    alloc: Global,
    entries: Vec<Entry>,
) -> Result<BTreeMap<Stamp, Vec<u8>>, AllocError>
    ensures { IfOk result (λ records. (stamp : List ℕ) → bytes_in records stamp ≡ bytes_at (records_of entries.items) stamp) }
{
    let mut records = BTreeMap::new(alloc);
    for entry in entries {
        keep(&mut records, entry)?;
    }
    Ok(records)
}

/// What is known of a folder that was opened; the stamps of its games are added.
fn known_by<'a>(
    alloc: Global,
    opened: OpenFolder<'a>,
    games: &mut BTreeSet<Stamp>,
) -> Result<GameFolder<'a>, AllocError>
    ensures known { IfOk result (λ f. IsKnownBy (opened_of opened.entry) (known_folder f)) }
    ensures games { OnOk result (AddsStamps (map string_bytes opened.entry.names.items) game_ending games.old.keys games.new.keys) }
{
    let OpenFolder {
        path,
        names,
        entries,
    } = opened;
    let mut kept = BTreeSet::new(alloc);
    add_stamps(&names, b".kept", &mut kept)?;
    add_stamps(&names, b".game", games)?;
    let records = records_by_stamp(alloc, entries)?;
    Ok(GameFolder {
        path,
        kept,
        records,
    })
}

/// What is known of a second folder, if one was opened; the stamps of its games are added.
fn other_known_by<'a>(
    alloc: Global,
    opened: Option<OpenFolder<'a>>,
    games: &mut BTreeSet<Stamp>,
) -> Result<Option<GameFolder<'a>>, AllocError>
    ensures known { IfOk result (λ f. IsOtherKnownBy (other_opened opened.entry) (option_map known_folder f)) }
    ensures games { OnOk result (AddsStamps (names_in (other_opened opened.entry)) game_ending games.old.keys games.new.keys) }
{
    match opened {
        None => Ok(None),
        Some(opened) => match known_by(alloc, opened, games) {
            Ok(folder) => Ok(Some(folder)),
            Err(fault) => Err(fault),
        },
    }
}

/// What is known of folders that were opened.
fn all_known_by<'a>(alloc: Global, opened: OpenFolders<'a>) -> Result<GameFolders<'a>, AllocError>
    ensures { IfOk result (λ f. AreKnownBy (both_of opened.entry) (known_folders f)) }
{
    let OpenFolders { one, other } = opened;
    let mut games = BTreeSet::new(alloc);
    let one = match known_by(alloc, one, &mut games) {
        Ok(one) => one,
        Err(fault) => return Err(fault),
    };
    let other = match other_known_by(alloc, other, &mut games) {
        Ok(other) => other,
        Err(fault) => return Err(fault),
    };
    match rising(alloc, &games) {
        Ok(stamps) => Ok(GameFolders { one, other, stamps }),
        Err(fault) => Err(fault),
    }
}

/// Opens a folder of games, and then a second one, if it is named: each is listed once, and its store is read. The first refusal is that of
/// `open_folder`.
pub(crate) fn open_games<'a, S: System>(
    alloc: Global,
    system: &S,
    timeline: &mut S::Timeline,
    folder: &'a str,
    other: Option<&'a str>,
) -> Result<GameFolders<'a>, Refusal>
    ensures { let o = S.outside system.now in AddsSome o timeline.old timeline.new (OpensGames o folder.now (path_named other.entry) (games_or_not result)) }
{
    let opened = match open_both(alloc, system, timeline, folder, other) {
        Ok(opened) => opened,
        Err(refusal) => return Err(refusal),
    };
    match all_known_by(alloc, opened) {
        Ok(folders) => Ok(folders),
        Err(_) => Err(Refusal::Memory),
    }
}
