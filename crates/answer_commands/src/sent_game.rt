//! The game that `send` sends.

ghost use Rattle.board_core.specs.Position.{IsPosition};
ghost use Rattle.fen_text.specs.Fen.{SpellsPosition};
ghost use Rattle.answer_commands.specs.Inside.Sending.{FileGiven, GameGiven, ToldGiven};
ghost use Rattle.timeline.specs.Outsides.{AddsSome};

use crate::stamping::stamping_manifest;
use answer_parts::Refusal;
use arbiter_server::{MOST_GAME_BYTES, read_game};
use board_core::Position;
use command_line::{GameFile, Send, SentGame, ToldGame};
use fen_text::read;
use move_msg::Stamp;
use std::alloc::Global;
use timeline::System;

/// A game, as far as a source knows it.
#[derive(Drop)]
pub(crate) struct GameSent {
    /// The stamp that its messages carry.
    pub(crate) stamp: Stamp,
    /// The position before the first move.
    pub(crate) start: Position,
}

/// A game that words tell, with a start that was read: its stamp is by the manifest of its tables.
fn stamped_game<S: System>(
    alloc: Global,
    task: &Send<'_>,
    told: &ToldGame<'_>,
    start: Position,
    system: &S,
    timeline: &mut S::Timeline,
) -> Result<GameSent, Refusal>
    requires spelled { SpellsPosition told.now.start.now start }
    requires position { IsPosition start }
    ensures { AddsSome (S.outside system.now) timeline.old timeline.new (ToldGiven (S.outside system.now) task.now told.now result) }
{
    match stamping_manifest(alloc, system, timeline, task.manifest, told.tables) {
        Ok(manifest) => Ok(GameSent {
            stamp: told.name.stamp(&start, &manifest, task.delay),
            start,
        }),
        Err(refusal) => Err(refusal),
    }
}

/// A game that words tell: its start is read before all else.
fn told_game<S: System>(
    alloc: Global,
    task: &Send<'_>,
    told: &ToldGame<'_>,
    system: &S,
    timeline: &mut S::Timeline,
) -> Result<GameSent, Refusal>
    ensures { AddsSome (S.outside system.now) timeline.old timeline.new (ToldGiven (S.outside system.now) task.now told.now result) }
{
    match read(told.start.as_bytes()) {
        Ok(start) => stamped_game(alloc, task, told, start, system, timeline),
        Err(fault) => Err(Refusal::Fen(fault)),
    }
}

/// A game in a file.
fn filed_game<S: System>(
    alloc: Global,
    file: &GameFile<'_>,
    system: &S,
    timeline: &mut S::Timeline,
) -> Result<GameSent, Refusal>
    ensures { AddsSome (S.outside system.now) timeline.old timeline.new (FileGiven (S.outside system.now) file.now result) }
{
    let bytes = match system.read_within(timeline, alloc, file.path, MOST_GAME_BYTES as u64) {
        Ok(bytes) => bytes,
        Err(fault) => return Err(Refusal::unread(fault)),
    };
    match read_game(&bytes) {
        Ok(game) => Ok(GameSent {
            stamp: file.stamp,
            start: game.start,
        }),
        Err(fault) => Err(Refusal::Line(usize::from(fault.line()))),
    }
}

/// Reads the game that is sent, or why there is none.
pub(crate) fn game_of<S: System>(
    alloc: Global,
    task: &Send<'_>,
    system: &S,
    timeline: &mut S::Timeline,
) -> Result<GameSent, Refusal>
    ensures { AddsSome (S.outside system.now) timeline.old timeline.new (GameGiven (S.outside system.now) task.now task.now.game result) }
{
    match &task.game {
        SentGame::Told(told) => told_game(alloc, task, told, system, timeline),
        SentGame::InFile(file) => filed_game(alloc, file, system, timeline),
    }
}
