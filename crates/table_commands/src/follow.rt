//! `follow`: the game of the moves of the input, ply by ply as they come.

ghost use Rattle.std.specs.Prelude.{◌≡◌, OnErr};
ghost use Rattle.answer_parts.specs.Looks.{gathered};
ghost use Rattle.answer_parts.specs.Printing.{OutputFails, Performs};
ghost use Rattle.table_commands.specs.Follow.{FollowsByAll, FollowsGame, FollowsGiven, FollowsInFolder, FollowsOpened, FollowsTask};
ghost use Rattle.timeline.specs.Outsides.{AddsSome};
ghost use Rattle.table_commands.specs.FolderReads.{DoesOver};

use crate::folders::folder_at;
use crate::judging::{begin, move_on};
use answer_parts::{Refusal, gather, print_refusal, print_unread};
use board_core::Position;
use bumpalo::Bump;
use command_line::{CacheSize, Follow, read_when_asked};
use fen_text::read;
use game_teller::{FollowedGame, PlyJudge, SetJudge, follow_game};
use judge_core::{Set, Standing};
use move_msg::Manifest;
use move_notation::Notation;
use std::alloc::{AllocError, Global};
use std::marker::Model;
use system_io::WriteFault;
use table_folder::{FileRefusal, SystemFiles, TableFiles, TableFolder};
use task_files::{Inputs, read_inputs};
use timeline::System;

/// Judges the plies of a game by the tables of a folder, of which those are read that a ply asks for.
///
/// Contracts see where the files are, the folder and the tables that are open, which are tables of the folder.
#[derive(Drop)]
struct FolderJudge<'r, 's, S: System> {
    folder: TableFolder<'r, SystemFiles<'s, S>>,
    set: Set<'r>,
}

impl<'r, 's, S: System> Model for FolderJudge<'r, 's, S> {
    ghost use Rattle.table_commands.specs.FolderAnswers.{TablesOn};
    ghost use Rattle.table_folder.specs.Folders.{AreOf};
    ghost use Rattle.table_folder.specs.declared.files.SystemFiles.{SystemFiles};

    ghost Value = { TablesOn (SystemFiles S) };

    ghost view = { λ j. record { on = j.folder; tables = j.set.tables } };

    ghost invariant = { λ j. AreOf (S.outside j.folder.disk.system.now).disk j.folder.folder j.set.tables };
}

impl<'r, 's, S: System> PlyJudge<S> for FolderJudge<'r, 's, S> {
    ghost use Rattle.std.specs.Prelude.{◌≡◌};
    ghost use Rattle.table_commands.specs.Follow.{by_folder};

    ghost reads_from = { λ j s. j.on.disk.system.now ≡ s };

    ghost facts = { λ j. by_folder (S.outside j.on.disk.system.now).disk j.on.folder j.tables };

    fn begin(
        &mut self,
        alloc: Global,
        _system: &S,
        timeline: &mut S::Timeline,
        start: &Position,
    ) -> Result<Result<Standing, FileRefusal>, AllocError> {
        begin(alloc, timeline, &self.folder, &mut self.set, start)
    }

    fn move_on(
        &mut self,
        alloc: Global,
        _system: &S,
        timeline: &mut S::Timeline,
        standing: &Standing,
        position: Position,
    ) -> Result<Result<Standing, FileRefusal>, AllocError> {
        move_on(
            alloc,
            timeline,
            &self.folder,
            &mut self.set,
            standing,
            position,
        )
    }
}

/// Follows a game by the tables of an open folder, each of which is read when a ply asks for it, and returns the status.
fn follow_opened<'r, 's, S: System>(
    alloc: Global,
    folder: TableFolder<'r, SystemFiles<'s, S>>,
    game: &FollowedGame,
    system: &S,
    timeline: &mut S::Timeline,
) -> Result<u8, WriteFault>
    requires { folder.disk.system.now ≡ system.now }
    ensures made { DoesOver (S.outside system.now) timeline.old timeline.new (λ disk input. FollowsOpened disk input folder.entry.folder game.now) result }
    ensures cause { OnErr result (OutputFails (S.outside system.now)) }
{
    match folder.new_set(alloc, CacheSize::usual().blocks()) {
        Ok(set) => {
            let mut judge = FolderJudge { folder, set };
            follow_game(alloc, game, &mut judge, system, timeline)
        }
        Err(_) => print_refusal(system, timeline, Refusal::Memory),
    }
}

/// Follows a game by the folder at a path, or writes the refusal of its manifest or of the folder, and returns the status.
fn follow_in<S: System>(
    alloc: Global,
    path: &str,
    manifest: &Manifest,
    game: &FollowedGame,
    system: &S,
    timeline: &mut S::Timeline,
) -> Result<u8, WriteFault>
    ensures made { DoesOver (S.outside system.now) timeline.old timeline.new (λ disk input. FollowsInFolder disk input path.now manifest.now game.now) result }
    ensures cause { OnErr result (OutputFails (S.outside system.now)) }
{
    let files = SystemFiles { system };
    let arena = Bump::new(alloc);
    match folder_at(alloc, &files, timeline, path, manifest, &arena) {
        Ok(Ok(folder)) => follow_opened(alloc, folder, game, system, timeline),
        Ok(Err(refusal)) => print_refusal(system, timeline, refusal),
        Err(_) => print_refusal(system, timeline, Refusal::Memory),
    }
}

/// Follows a game by the tables of files, or writes the refusal of these, and returns the status.
fn follow_by_all<S: System>(
    alloc: Global,
    sources: &Inputs,
    game: &FollowedGame,
    system: &S,
    timeline: &mut S::Timeline,
) -> Result<u8, WriteFault>
    ensures made { DoesOver (S.outside system.now) timeline.old timeline.new (λ _ input. FollowsByAll input (gathered sources.now) game.now) result }
    ensures cause { OnErr result (OutputFails (S.outside system.now)) }
{
    match gather(alloc, sources, CacheSize::usual()) {
        Ok(Ok(set)) => {
            let mut judge = SetJudge { set };
            follow_game(alloc, game, &mut judge, system, timeline)
        }
        Ok(Err(refusal)) => print_refusal(system, timeline, refusal),
        Err(_) => print_refusal(system, timeline, Refusal::Memory),
    }
}

/// Follows a game by the tables of a folder or by those that were read, and returns the status.
fn follow_by<S: System>(
    alloc: Global,
    task: &Follow<'_>,
    sources: &Inputs,
    game: &FollowedGame,
    system: &S,
    timeline: &mut S::Timeline,
) -> Result<u8, WriteFault>
    ensures made { DoesOver (S.outside system.now) timeline.old timeline.new (FollowsTask task.now sources.now game.now) result }
    ensures cause { OnErr result (OutputFails (S.outside system.now)) }
{
    match read_when_asked(!task.all_tables, task.tables) {
        Some(path) => follow_in(alloc, path, sources.manifest(), game, system, timeline),
        None => follow_by_all(alloc, sources, game, system, timeline),
    }
}

/// Follows the game from the position of the text, or writes the refusal of the text, and returns the status.
fn follow_given<S: System>(
    alloc: Global,
    task: &Follow<'_>,
    sources: &Inputs,
    system: &S,
    timeline: &mut S::Timeline,
) -> Result<u8, WriteFault>
    ensures made { DoesOver (S.outside system.now) timeline.old timeline.new (λ disk input. FollowsGiven disk input task.now sources.now) result }
    ensures cause { OnErr result (OutputFails (S.outside system.now)) }
{
    match read(task.fen.as_bytes()) {
        Err(fault) => print_refusal(system, timeline, Refusal::Fen(fault)),
        Ok(start) => {
            let game = FollowedGame {
                notation: Notation::by_flag(task.san),
                start,
                delay: task.delay,
            };
            follow_by(alloc, task, sources, &game, system, timeline)
        }
    }
}

/// Follows the game of the input from the position of the text, a line for ply 0 and for the ply after each move, as
/// `game_teller::follow_game` has it. Returns the status, 0 where the game came to a verdict or to the input's end, else
/// 1. What the task names is read first: the manifest, and with `--all-tables` the files of the tables. A text that is no position is
/// refused then, and then the folder.
///
/// A table is read when a ply asks for it. Where its file is at fault, that is printed in the ply's place, and nothing more. With
/// `--all-tables` all are read before, and the first file at fault is refused. The error comes only where the output failed.
pub fn answer<S: System>(
    alloc: Global,
    task: &Follow<'_>,
    system: &S,
    timeline: &mut S::Timeline,
) -> Result<u8, WriteFault>
    ensures made { AddsSome (S.outside system.now) timeline.old timeline.new (Performs (FollowsGame (S.outside system.now) task.now) result) }
    ensures cause { OnErr result (OutputFails (S.outside system.now)) }
{
    let names = task.places();
    match read_inputs(alloc, system, timeline, &names) {
        Ok(sources) => follow_given(alloc, task, &sources, system, timeline),
        Err(fault) => print_unread(system, timeline, fault, 1),
    }
}
