//! Tasks that are answered by tables.

ghost use Rattle.std.specs.Prelude.{OnErr};
ghost use Rattle.answer_commands.specs.TableReplies.{DoesByTables, RanksMoves};
ghost use Rattle.answer_parts.specs.Printing.{OutputFails, Performs};
ghost use Rattle.timeline.specs.Outsides.{AddsSome};

use crate::replying::{RootText, make_reply};
use command_line::{Follow, FollowGame, FollowGames, Judge, JudgePgn, Probe, Probes, Root};
use std::alloc::Global;
use system_io::WriteFault;
use table_commands::{answer_lines_of, follow, pgn};
use timeline::System;

/// A task that is answered by tables.
#[derive(Drop)]
pub enum TableTask<'a> {
    /// The verdict on a position.
    Judge(Judge<'a>),
    /// What tables tell of a position.
    Probe(Probe<'a>),
    /// What tables tell of the positions of the input.
    Probes(Probes<'a>),
    /// What tables tell of the legal moves of a position, or of those of the input.
    Root(Root<'a>),
    /// What the game of the input comes to.
    Game(FollowGame<'a>),
    /// What the games of the input come to.
    Games(FollowGames<'a>),
    /// What tables say of the games of a PGN file.
    Pgn(JudgePgn<'a>),
    /// The game of the input, ply by ply.
    Follow(Follow<'a>),
}

/// Answers the position of a task's words with its legal moves, or each line of the input.
fn rank_moves<S: System>(
    alloc: Global,
    task: &Root<'_>,
    system: &S,
    timeline: &mut S::Timeline,
) -> Result<u8, WriteFault>
    ensures made { AddsSome (S.outside system.now) timeline.old timeline.new (Performs (RanksMoves (S.outside system.now) task.now) result) }
    ensures cause { OnErr result (OutputFails (S.outside system.now)) }
{
    match task.fen {
        Some(text) => make_reply(alloc, &RootText { task, text }, system, timeline),
        None => answer_lines_of(alloc, task, system, timeline),
    }
}

/// Answers a task by tables, but for the output's end, and returns the status. The error comes only where the output may fail.
pub(crate) fn answer_by_tables<S: System>(
    alloc: Global,
    task: &TableTask,
    system: &S,
    timeline: &mut S::Timeline,
) -> Result<u8, WriteFault>
    ensures made { AddsSome (S.outside system.now) timeline.old timeline.new (Performs (DoesByTables (S.outside system.now) task.now) result) }
    ensures cause { OnErr result (OutputFails (S.outside system.now)) }
{
    match task {
        TableTask::Judge(task) => make_reply(alloc, task, system, timeline),
        TableTask::Probe(task) => make_reply(alloc, task, system, timeline),
        TableTask::Probes(task) => answer_lines_of(alloc, task, system, timeline),
        TableTask::Root(task) => rank_moves(alloc, task, system, timeline),
        TableTask::Game(task) => make_reply(alloc, task, system, timeline),
        TableTask::Games(task) => answer_lines_of(alloc, task, system, timeline),
        TableTask::Pgn(task) => pgn::answer(alloc, task, system, timeline),
        TableTask::Follow(task) => follow::answer(alloc, task, system, timeline),
    }
}
