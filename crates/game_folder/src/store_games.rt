//! Games whose files are in a folder, and whose records are in one store.

ghost use Rattle.std.specs.Prelude.{◌≡◌, ◌↔◌, [], None, Some, IfErr, IfOk, IsTrue};
ghost use Rattle.arbiter_server.specs.GameFiles.{game_as_told};
ghost use Rattle.arbiter_server.specs.GameFolders.{HasGame};
ghost use Rattle.timeline.specs.Events.{bytes_found, done_by};
ghost use Rattle.timeline.specs.Outsides.{AddsSome};
ghost use Rattle.game_folder.specs.FolderGames.{LacksFile};
ghost use Rattle.game_folder.specs.Holdings.{CommitsGames, FindsGame, IsKeptIn, KeepsIn, TakesGame, kept_of};
ghost use Rattle.game_folder.specs.Places.{InStore};
ghost use Rattle.game_folder.specs.StoreGames.{CommitsNoted, IsCountOf, IsEntryFor, IsInStore, LeavesNoted, LooksUpRecord, MayGive, Notes, StoredGames, Stores, given_record, kept_bytes, last_noted, loss_told, store_games_facts};

use crate::draft::Draft;
use crate::folder_games::find_file;
use crate::games::{Games, KeptGame};
use arbiter_server::{GameConfig, OpenGameError, Uncommitted};
use move_msg::{Record, Stamp};
use std::alloc::{AllocError, Global};
use std::marker::Model;
use std::mem;
use system_io::{Entry, MOST_KEPT_BYTES, PutFault};
use timeline::System;

/// What is noted where the store can't be written.
const STORE_LOST: &str = "the store can't be written: the run ends";

/// Why no more can be committed.
#[derive(Clone, Copy)]
pub(crate) enum Loss {
    /// The store can't be written.
    OfStore,
    /// Memory was refused to note what a game puts.
    OfMemory,
}

impl Loss {
    /// As it is told.
    fn told(self) -> Uncommitted
        ensures { result ≡ loss_told self }
    {
        match self {
            Loss::OfStore => Uncommitted::StoreLost,
            Loss::OfMemory => Uncommitted::NotNoted,
        }
    }
}

/// The games of a folder: of each the file that tells it, `FOLDER/STAMP.game`, and its record in a store. What games put is noted in memory,
/// and goes into the store at once when it is committed.
#[derive(Drop)]
pub struct StoreGames<'f, S: System> {
    alloc: Global,
    folder: &'f str,
    store: S::Store,
    noted: Vec<Entry>,
    /// Games of which a file of the folder should have a record and has none: their records aren't given.
    left: Vec<Stamp>,
    /// Why no more can be committed, once that is so.
    loss: Option<Loss>,
}

impl<'f, S: System> Model for StoreGames<'f, S> {
    ghost use Rattle.game_folder.specs.StoreGames.{StoredGames};

    ghost Value = { StoredGames S.Store };

    ghost view = { λ g. record { folder = g.folder.now; store = g.store; noted = g.noted.items; left = g.left.items; loss = g.loss } };
}

/// The bytes that are noted last of the game with this stamp.
fn last_noted(noted: &[Entry], stamp: Stamp) -> Option<&[u8]>
    ensures { bytes_found result ≡ last_noted noted.now stamp }
{
    let mut found = None;
    for entry in noted {
        if entry.stamp == stamp.0 {
            found = Some(entry.record.as_slice());
        }
    }
    found
}

/// How many moves a record has; 0 where the bytes are no record.
fn count_of(bytes: &[u8]) -> u32
    ensures { IsCountOf bytes.now result }
{
    match Record::summary(bytes) {
        Some(found) => found.0,
        None => 0,
    }
}

/// What is to be put into a store of the game with this stamp.
fn entry_of(alloc: Global, stamp: Stamp, bytes: &[u8]) -> Result<Entry, AllocError>
    ensures { IfOk result (IsEntryFor stamp bytes.now) }
{
    let Ok(record) = Vec::from_slice(alloc, bytes) else {
        return Err(AllocError);
    };
    let key = stamp.0;
    Ok(Entry {
        stamp: key,
        count: count_of(bytes),
        record,
    })
}

/// A game with the record that is noted or stored of it. `Keeper` where that has more than 8217 bytes.
fn game_with<F: Drop>(
    stamp: Stamp,
    draft: Draft,
    got: Option<&[u8]>,
) -> Result<KeptGame<F>, OpenGameError>
    requires { draft ≡ record { kept = None; to_put = None } }
    ensures kept { kept_of result ≡ given_record (bytes_found got.entry) }
    ensures ok { IfOk result (IsInStore stamp) }
{
    let mut draft = draft;
    if let Some(bytes) = got {
        if bytes.len() > MOST_KEPT_BYTES {
            return Err(OpenGameError::Keeper);
        }
        draft.found(bytes);
    }
    Ok(KeptGame {
        stamp,
        draft,
        file: None,
    })
}

impl<'f, S: System> StoreGames<'f, S> {
    /// The games of a folder, with a store of the system. Some are left: the store has no record of them, and their files hold none.
    pub fn over(
        alloc: Global,
        folder: &'f str,
        store: S::Store,
        left: Vec<Stamp>,
    ) -> StoreGames<'f, S>
        ensures { result ≡ record { folder = folder.now; store = store; noted = []; left = left.items; loss = None } }
    {
        StoreGames {
            alloc,
            folder,
            store,
            noted: Vec::new(alloc),
            left,
            loss: None,
        }
    }

    /// Whether the record of a game may be given: what is noted can be committed, and the game isn't left.
    fn may_give(&self, stamp: Stamp) -> bool
        ensures { IsTrue result ↔ MayGive self.now stamp }
    {
        self.loss.is_none() && !self.left.iter().any(|other| *other == stamp)
    }

    /// A game with its record: what is noted of it, or else what the store has.
    fn look_up(
        &self,
        system: &S,
        timeline: &mut S::Timeline,
        draft: Draft,
        stamp: Stamp,
    ) -> Result<KeptGame<S::File>, OpenGameError>
        requires may { MayGive self.now stamp }
        requires new { draft ≡ record { kept = None; to_put = None } }
        ensures { AddsSome (S.outside system.now) timeline.old timeline.new (LooksUpRecord (S.outside system.now) self.now stamp result) }
    {
        match last_noted(&self.noted, stamp) {
            Some(bytes) => game_with(stamp, draft, Some(bytes)),
            None => game_with(stamp, draft, system.find(timeline, &self.store, &stamp.0)),
        }
    }

    /// Notes what a game puts. Where memory for that is refused, no more can be committed.
    fn add(&mut self, stamp: Stamp, bytes: &[u8]) -> Result<(), OpenGameError>
        ensures { Notes self.old stamp (Some bytes.now) result self.new }
    {
        let Ok(entry) = entry_of(self.alloc, stamp, bytes) else {
            self.loss = Some(Loss::OfMemory);
            return Err(OpenGameError::OutOfMemory);
        };
        let Ok(()) = self.noted.push(entry) else {
            self.loss = Some(Loss::OfMemory);
            return Err(OpenGameError::OutOfMemory);
        };
        Ok(())
    }
}

impl<'f, S: System> Games<S> for StoreGames<'f, S> {
    ghost facts = { λ system. store_games_facts (S.outside system) };

    fn find(
        &self,
        alloc: Global,
        system: &S,
        timeline: &mut S::Timeline,
        stamp: Stamp,
    ) -> Result<GameConfig, OpenGameError>
        ensures made { let o = S.outside system.now in AddsSome o timeline.old timeline.new (FindsGame (store_games_facts o) self.now stamp result) }
        ensures told { IfOk result (λ game. HasGame (S.outside system.now).disk self.now.folder stamp (game_as_told game.name.items game.start game.delay)) }
        ensures lacks { IfErr result (LacksFile (S.outside system.now).disk self.now.folder stamp) }
    {
        find_file(alloc, system, timeline, self.folder, stamp)
    }

    /// `Keeper` where no more can be committed, where the game is left, or where its record has more than 8217 bytes.
    fn take(
        &mut self,
        alloc: Global,
        system: &S,
        timeline: &mut S::Timeline,
        stamp: Stamp,
    ) -> Result<KeptGame<S::File>, OpenGameError>
        ensures made { let o = S.outside system.now in AddsSome o timeline.old timeline.new (TakesGame (store_games_facts o) o self.old self.new stamp result) }
        ensures same { self.new ≡ self.old }
        ensures gives { IfOk result (λ game. game.draft.kept ≡ kept_bytes (S.outside system.now) self.old stamp) }
    {
        if !self.may_give(stamp) {
            return Err(OpenGameError::Keeper);
        }
        let Ok(draft) = Draft::new(alloc) else {
            return Err(OpenGameError::OutOfMemory);
        };
        self.look_up(system, timeline, draft, stamp)
    }

    fn keep(
        &mut self,
        system: &S,
        _timeline: &mut S::Timeline,
        game: &mut KeptGame<S::File>,
    ) -> Result<(), OpenGameError>
        requires { IsKeptIn (S.outside system.now) (InStore ((S.outside system.now).store_path self.old.store)) game.old.file }
        ensures made { let o = S.outside system.now in KeepsIn (store_games_facts o) o self.old self.new game.old game.new _timeline.old _timeline.new result }
        ensures noted { Notes self.old game.old.stamp game.old.draft.to_put result self.new }
    {
        let Some(bytes) = game.draft.to_put() else {
            return Ok(());
        };
        let done = self.add(game.stamp, bytes);
        game.draft.settle();
        done
    }

    fn commit(&mut self, system: &S, timeline: &mut S::Timeline) -> Result<(), Uncommitted>
        ensures made { let o = S.outside system.now in AddsSome o timeline.old timeline.new (CommitsGames (store_games_facts o) self.old self.new result) }
        ensures why { let o = S.outside system.now in AddsSome o timeline.old timeline.new (CommitsNoted (o.store_path self.old.store) self.old (done_by result)) }
        ensures left { LeavesNoted result self.old self.new }
        ensures stored { Stores (S.outside system.now) result self.old self.new }
    {
        if let Some(loss) = self.loss {
            return Err(loss.told());
        }
        if self.noted.is_empty() {
            return Ok(());
        }
        let noted = mem::replace(&mut self.noted, Vec::new(self.alloc));
        match system.commit(timeline, &mut self.store, noted) {
            Ok(()) => Ok(()),
            Err(PutFault::OutOfMemory(batch)) => {
                self.noted = batch;
                Err(Uncommitted::OutOfMemory)
            }
            Err(PutFault::Failed) => {
                system.note(timeline, &[STORE_LOST]);
                self.loss = Some(Loss::OfStore);
                Err(Uncommitted::StoreLost)
            }
        }
    }
}
