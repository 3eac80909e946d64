//! Games whose files are in a folder, and whose records are in files beside them.

ghost use Rattle.std.specs.Prelude.{IfErr, IfOk, Ok};
ghost use Rattle.arbiter_server.specs.GameFiles.{game_as_told};
ghost use Rattle.arbiter_server.specs.GameFolders.{HasGame};
ghost use Rattle.timeline.specs.Outsides.{AddsSome};
ghost use Rattle.game_folder.specs.FolderGames.{FindsInFolder, IsToldBy, LacksFile, folder_games_facts};
ghost use Rattle.game_folder.specs.Holdings.{FindsGame};

use crate::games::{Games, KeptGame};
use crate::record_file::{put_file, take_file};
use arbiter_server::{
    GameConfig, MOST_GAME_BYTES, OpenGameError, Uncommitted, game_path, kept_path, read_game,
};
use move_msg::Stamp;
use std::alloc::Global;
use system_io::ReadFault;
use timeline::System;

/// The games of a folder: of each the file that tells it, `FOLDER/STAMP.game`, and the file of its record, `FOLDER/STAMP.kept`. A game may
/// be entered there at any time. What a game puts goes into its file at once.
#[derive(Clone, Copy)]
pub struct FolderGames<'f> {
    /// The path of the folder.
    pub folder: &'f str,
}

/// The game that the bytes of a file tell.
fn game_told(text: &[u8]) -> Result<GameConfig, OpenGameError>
    ensures { IsToldBy (Ok text.now) result }
{
    match read_game(text) {
        Ok(game) => Ok(GameConfig {
            name: game.name,
            start: game.start,
            delay: game.delay,
        }),
        Err(fault) => Err(OpenGameError::BadGame(u32::from(fault.line()))),
    }
}

/// The game whose file a folder has under a stamp. `NoGame` where the file isn't there, can't be read, or has more than 192 bytes; `BadGame`
/// with the first line at fault, counted from 1; `OutOfMemory` where memory is refused.
pub(crate) fn find_file<S: System>(
    alloc: Global,
    system: &S,
    timeline: &mut S::Timeline,
    folder: &str,
    stamp: Stamp,
) -> Result<GameConfig, OpenGameError>
    ensures made { AddsSome (S.outside system.now) timeline.old timeline.new (FindsInFolder folder.now stamp result) }
    ensures told { IfOk result (λ game. HasGame (S.outside system.now).disk folder.now stamp (game_as_told game.name.items game.start game.delay)) }
    ensures lacks { IfErr result (LacksFile (S.outside system.now).disk folder.now stamp) }
{
    let Ok(path) = game_path(alloc, folder, stamp) else {
        return Err(OpenGameError::OutOfMemory);
    };
    match system.look_within(timeline, alloc, path.as_str(), MOST_GAME_BYTES as u64) {
        Ok(text) => game_told(&text),
        Err(ReadFault::Unreadable) => Err(OpenGameError::NoGame),
        Err(ReadFault::OutOfMemory) => Err(OpenGameError::OutOfMemory),
    }
}

impl<'f, S: System> Games<S> for FolderGames<'f> {
    ghost facts = { λ system. folder_games_facts (S.outside system) };

    fn find(
        &self,
        alloc: Global,
        system: &S,
        timeline: &mut S::Timeline,
        stamp: Stamp,
    ) -> Result<GameConfig, OpenGameError>
        ensures made { AddsSome (S.outside system.now) timeline.old timeline.new (FindsGame (folder_games_facts (S.outside system.now)) self.now stamp result) }
        ensures told { IfOk result (λ game. HasGame (S.outside system.now).disk self.now.folder.now stamp (game_as_told game.name.items game.start game.delay)) }
        ensures lacks { IfErr result (LacksFile (S.outside system.now).disk self.now.folder.now stamp) }
    {
        find_file(alloc, system, timeline, self.folder, stamp)
    }

    fn take(
        &mut self,
        alloc: Global,
        system: &S,
        timeline: &mut S::Timeline,
        stamp: Stamp,
    ) -> Result<KeptGame<S::File>, OpenGameError> {
        let Ok(path) = kept_path(alloc, self.folder, stamp) else {
            return Err(OpenGameError::OutOfMemory);
        };
        take_file(alloc, system, timeline, path.as_str(), stamp)
    }

    fn keep(
        &mut self,
        system: &S,
        timeline: &mut S::Timeline,
        game: &mut KeptGame<S::File>,
    ) -> Result<(), OpenGameError> {
        put_file(system, timeline, game)
    }

    // Each put has brought its bytes into the file.
    fn commit(&mut self, _system: &S, _timeline: &mut S::Timeline) -> Result<(), Uncommitted> {
        Ok(())
    }
}
