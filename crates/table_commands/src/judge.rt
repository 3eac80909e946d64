//! `judge`: the verdict on a position.

ghost use Rattle.std.specs.Prelude.{IfOk};
ghost use Rattle.table_commands.specs.Judge.{IsJudged, JudgedBy, Judges, JudgesGiven};
ghost use Rattle.table_folder.specs.Reads.{PassesSome};
ghost use Rattle.table_folder.specs.Settled.{IsAlone};
ghost use Rattle.table_commands.specs.FolderReads.{made_reply, MakesFrom};
ghost use Rattle.answer_parts.specs.Asked.{reply_of};
ghost use Rattle.answer_parts.specs.Lines.{refusal_words};
ghost use Rattle.answer_parts.specs.Looks.{gathered};
ghost use Rattle.answer_parts.specs.Reply.{ByTables};
ghost use Rattle.table_commands.specs.Inside.Asking.{MakesAt};

use crate::folders::{FolderPlace, ask_at};
use crate::questions::ColumnsOf;
use answer_parts::{Answer, Line, Refusal, gather};
use board_core::Position;
use command_line::{CacheSize, Judge, read_when_asked};
use fen_text::read;
use std::alloc::{AllocError, Global};
use table_folder::TableFiles;
use task_files::Inputs;

/// The verdict by the tables of files, or that the game goes on, or the refusal of the files: of a manifest at fault, then of
/// the first file at fault.
#[tactic(auto, unfolding(crate::specs::Judge::judged))]
fn verdict_of(alloc: Global, sources: &Inputs, position: &Position) -> Result<Answer, AllocError>
    ensures { IfOk result (λ a. ByTables (gathered sources.now) IsJudged position.now (reply_of a)) }
{
    match gather(alloc, sources, CacheSize::usual()) {
        Ok(Ok(mut set)) => {
            let verdict = set.judge(alloc, position)?;
            Ok(Answer::One(Line::Ruling(verdict), true))
        }
        Ok(Err(refusal)) => Ok(Answer::Refused(refusal)),
        Err(_) => Err(AllocError),
    }
}

/// The verdict by the tables of a folder, of which those are read that the position asks for, or the refusal of one of these.
fn verdict_in<F: TableFiles>(
    alloc: Global,
    log: &mut F::Log,
    place: &FolderPlace<'_, F>,
    position: &Position,
) -> Result<Answer, AllocError>
    ensures { MakesAt F.facts F.events place.now log.old log.new refusal_words (IsAlone position.now) (JudgedBy position.now) result }
{
    match ask_at(alloc, log, place, &ColumnsOf { position })? {
        Ok(columns) => Ok(Answer::One(Line::Ruling(columns.verdict), true)),
        Err(refusal) => Ok(Answer::Refused(refusal)),
    }
}

/// The verdict on a position by the tables that were read, or by those that it asks for.
fn answer_position<F: TableFiles>(
    alloc: Global,
    log: &mut F::Log,
    task: &Judge<'_>,
    sources: &Inputs,
    disk: &F,
    position: &Position,
) -> Result<Answer, AllocError>
    ensures { MakesFrom F.facts F.events disk.now log.old log.new (λ disk. JudgesGiven disk task.now sources.now position.now) result }
{
    match read_when_asked(task.lazy, task.tables) {
        Some(path) => {
            let manifest = sources.manifest();
            let place = FolderPlace {
                disk,
                path,
                manifest,
            };
            verdict_in(alloc, log, &place, position)
        }
        None => verdict_of(alloc, sources, position),
    }
}

/// The verdict on the position of the text: a text that is none is refused first. With `--lazy` a table is read when the position
/// asks for it, and what is at fault in another one isn't told.
pub fn answer<F: TableFiles>(
    alloc: Global,
    log: &mut F::Log,
    task: &Judge<'_>,
    sources: &Inputs,
    disk: &F,
) -> Result<Answer, AllocError>
    ensures { PassesSome (F.events disk.now log.old) (F.events disk.now log.new) (Judges (F.facts disk.now) task.now sources.now (made_reply result)) }
{
    match read(task.fen.as_bytes()) {
        Err(fault) => Ok(Answer::Refused(Refusal::Fen(fault))),
        Ok(position) => answer_position(alloc, log, task, sources, disk, &position),
    }
}
