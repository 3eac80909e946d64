//! `game`: the game of the moves of the input, and its outcome.

ghost use Rattle.std.specs.Prelude.{◌≡◌, IfOk};
ghost use Rattle.answer_parts.specs.Asked.{reply_of};
ghost use Rattle.answer_parts.specs.Lines.{refusal_words};
ghost use Rattle.answer_parts.specs.Looks.{gathered};
ghost use Rattle.answer_parts.specs.Reply.{ByTables};
ghost use Rattle.table_commands.specs.Courses.{in_play_of};
ghost use Rattle.table_commands.specs.FolderReads.{made_reply, MakesFrom};
ghost use Rattle.table_commands.specs.Game.{IsOutcomeOfGiven, IsOutcomeReply, JudgesCourse, PlaysFrom, PlaysGame, are_all_legal, outcome_reply};
ghost use Rattle.table_commands.specs.Inside.Courses.{course_of};
ghost use Rattle.table_folder.specs.Reads.{PassesSome};
ghost use Rattle.table_commands.specs.Inside.Asking.{MakesAt};

use crate::folders::{FolderPlace, ask_at};
use crate::judging::Course;
use answer_parts::{Answer, Line, Refusal, gather};
use board_core::{Move, Position};
use command_line::{CacheSize, FollowGame, read_when_asked};
use fen_text::read;
use judge_core::{GameOutcome, Outcome};
use move_notation::{Notation, read_moves_in};
use std::alloc::{AllocError, Global};
use table_folder::TableFiles;
use task_files::Inputs;

/// Whether all moves of a game are legal, or those to its verdict.
pub(crate) fn are_all_legal(outcome: GameOutcome) -> bool
    ensures { result ≡ are_all_legal outcome }
{
    match outcome {
        GameOutcome::Illegal { .. } => false,
        _ => true,
    }
}

/// The line of an outcome.
fn told(outcome: GameOutcome, moves: &[Move]) -> Answer
    ensures { reply_of result ≡ outcome_reply outcome moves.now }
{
    let line = Line::Outcome(Outcome {
        outcome,
        plies: moves.len(),
    });
    Answer::One(line, are_all_legal(outcome))
}

/// The outcome of a game by the tables of a folder, of which those are read that its positions ask for. Or the refusal: of a malformed
/// manifest, then of the folder, then of the first file that is asked for and at fault.
fn outcome_in<F: TableFiles>(
    alloc: Global,
    log: &mut F::Log,
    place: &FolderPlace<'_, F>,
    game: &Course<'_>,
) -> Result<Answer, AllocError>
    ensures { MakesAt F.facts F.events place.now log.old log.new refusal_words (in_play_of (course_of game.now)) (IsOutcomeReply (course_of game.now)) result }
{
    match ask_at(alloc, log, place, game)? {
        Ok(outcome) => Ok(told(outcome, game.moves)),
        Err(refusal) => Ok(Answer::Refused(refusal)),
    }
}

/// The outcome of a game by the tables of files, or the refusal of these.
fn outcome_of(alloc: Global, sources: &Inputs, game: &Course<'_>) -> Result<Answer, AllocError>
    ensures { IfOk result (λ a. ByTables (gathered sources.now) (IsOutcomeOfGiven (course_of game.now)) (course_of game.now).start (reply_of a)) }
{
    match gather(alloc, sources, CacheSize::usual()) {
        Ok(Ok(mut set)) => {
            let delay = game.delay.plies();
            match set.judge_game(alloc, game.start, game.moves, delay) {
                Ok(outcome) => Ok(told(outcome, game.moves)),
                Err(fault) => Err(fault),
            }
        }
        Ok(Err(refusal)) => Ok(Answer::Refused(refusal)),
        Err(_) => Err(AllocError),
    }
}

/// The outcome of a game by the tables of the folder at a path that its positions ask for, or by those that were read.
fn outcome_at<'x, F: TableFiles>(
    alloc: Global,
    log: &mut F::Log,
    path: Option<&'x str>,
    sources: &'x Inputs,
    disk: &'x F,
    game: &Course<'_>,
) -> Result<Answer, AllocError>
    ensures { MakesFrom F.facts F.events disk.now log.old log.new (λ disk. JudgesCourse disk sources.now path.entry (course_of game.now)) result }
{
    match path {
        Some(path) => {
            let manifest = sources.manifest();
            let place = FolderPlace {
                disk,
                path,
                manifest,
            };
            outcome_in(alloc, log, &place, game)
        }
        None => outcome_of(alloc, sources, game),
    }
}

/// The outcome of the game of the input from a position. The first word that is no move is refused, in algebraic notation one that
/// names no legal move in its turn; then the tables.
fn answer_from<F: TableFiles>(
    alloc: Global,
    log: &mut F::Log,
    task: &FollowGame<'_>,
    sources: &Inputs,
    disk: &F,
    start: &Position,
) -> Result<Answer, AllocError>
    ensures { PassesSome (F.events disk.now log.old) (F.events disk.now log.new) (PlaysFrom (F.facts disk.now) task.now sources.now start.now (made_reply result)) }
{
    let notation = Notation::by_flag(task.san);
    match read_moves_in(alloc, notation, start, sources.input()) {
        Ok(Ok(moves)) => {
            let game = Course {
                start,
                moves: &moves,
                delay: task.delay,
            };
            let path = read_when_asked(!task.all_tables, task.tables);
            outcome_at(alloc, log, path, sources, disk, &game)
        }
        Ok(Err(place)) => Ok(Answer::Refused(Refusal::Move(place))),
        Err(fault) => Err(fault),
    }
}

/// The outcome of the game of the input from the position of the text. A text that is no position is refused first.
///
/// A table is read when a position of the game asks for it, up to the first move that isn't legal, and the file of one that is at fault
/// is refused. With `--all-tables` all are read before, and the first file at fault is refused.
pub fn answer<F: TableFiles>(
    alloc: Global,
    log: &mut F::Log,
    task: &FollowGame<'_>,
    sources: &Inputs,
    disk: &F,
) -> Result<Answer, AllocError>
    ensures { PassesSome (F.events disk.now log.old) (F.events disk.now log.new) (PlaysGame (F.facts disk.now) task.now sources.now (made_reply result)) }
{
    match read(task.fen.as_bytes()) {
        Err(fault) => Ok(Answer::Refused(Refusal::Fen(fault))),
        Ok(position) => answer_from(alloc, log, task, sources, disk, &position),
    }
}
