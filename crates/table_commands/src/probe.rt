//! `probe`: the values of a position in tables.

ghost use Rattle.std.specs.Prelude.{◌≡◌, IfOk};
ghost use Rattle.table_commands.specs.Probe.{IsProbeReply, ProbedBy, Probes, ProbesGiven, probed_reply};
ghost use Rattle.table_folder.specs.Reads.{PassesSome};
ghost use Rattle.table_folder.specs.Settled.{IsAlone};
ghost use Rattle.table_commands.specs.FolderReads.{made_reply, MakesFrom};
ghost use Rattle.answer_parts.specs.Asked.{reply_of};
ghost use Rattle.answer_parts.specs.Lines.{refusal_words};
ghost use Rattle.answer_parts.specs.Looks.{gathered};
ghost use Rattle.answer_parts.specs.Reply.{ByTables};
ghost use Rattle.table_commands.specs.Inside.Asking.{MakesAt};

use crate::folders::{FolderPlace, ask_at};
use crate::questions::ColumnsOf;
use answer_parts::{Answer, Line, Refusal, gather};
use board_core::Position;
use command_line::{CacheSize, Probe, read_when_asked};
use fen_text::read;
use judge_core::{Column, ProbeResult, Set};
use std::alloc::{AllocError, Global};
use table_folder::TableFiles;
use task_files::Inputs;

/// Both probes, a line each.
fn tell(alloc: Global, probed: ProbeResult) -> Result<Answer, AllocError>
    ensures { IfOk result (λ a. reply_of a ≡ probed_reply probed) }
{
    let lines = [Line::Wdl(Column(probed.wdl)), Line::Dtz(Column(probed.dtz))];
    let lines = Vec::from_slice(alloc, &lines)?;
    Ok(Answer::Lines(lines, probed.has_both()))
}

/// The values of a position in the tables, a line each.
fn told_by(alloc: Global, set: &mut Set<'_>, position: &Position) -> Result<Answer, AllocError>
    ensures { IfOk result (λ a. IsProbeReply set.old.tables position.now (reply_of a)) }
{
    match set.probe(alloc, position) {
        Ok(probed) => tell(alloc, probed),
        Err(_) => Err(AllocError),
    }
}

/// The values of a position in the tables of files, or the refusal of these: of a malformed manifest, then of the first
/// file at fault.
fn told_of(alloc: Global, sources: &Inputs, position: &Position) -> Result<Answer, AllocError>
    ensures { IfOk result (λ a. ByTables (gathered sources.now) IsProbeReply position.now (reply_of a)) }
{
    match gather(alloc, sources, CacheSize::usual()) {
        Ok(Ok(mut set)) => told_by(alloc, &mut set, position),
        Ok(Err(refusal)) => Ok(Answer::Refused(refusal)),
        Err(_) => Err(AllocError),
    }
}

/// The values in the tables of a folder, of which those are read that the position asks for, or the refusal of one of these.
fn told_in<F: TableFiles>(
    alloc: Global,
    log: &mut F::Log,
    place: &FolderPlace<'_, F>,
    position: &Position,
) -> Result<Answer, AllocError>
    ensures { MakesAt F.facts F.events place.now log.old log.new refusal_words (IsAlone position.now) (ProbedBy position.now) result }
{
    match ask_at(alloc, log, place, &ColumnsOf { position })? {
        Ok(columns) => tell(alloc, columns.probed),
        Err(refusal) => Ok(Answer::Refused(refusal)),
    }
}

/// The values of a position in the tables that were read, or in those that it asks for.
fn answer_position<F: TableFiles>(
    alloc: Global,
    log: &mut F::Log,
    task: &Probe<'_>,
    sources: &Inputs,
    disk: &F,
    position: &Position,
) -> Result<Answer, AllocError>
    ensures { MakesFrom F.facts F.events disk.now log.old log.new (λ disk. ProbesGiven disk task.now sources.now position.now) result }
{
    match read_when_asked(task.lazy, Some(task.tables)) {
        Some(path) => {
            let manifest = sources.manifest();
            let place = FolderPlace {
                disk,
                path,
                manifest,
            };
            told_in(alloc, log, &place, position)
        }
        None => told_of(alloc, sources, position),
    }
}

/// The values of the position of the text. A text that is no position is refused first. With `--lazy` a table is read when the
/// position asks for it, and what is at fault in another one isn't told.
pub fn answer<F: TableFiles>(
    alloc: Global,
    log: &mut F::Log,
    task: &Probe<'_>,
    sources: &Inputs,
    disk: &F,
) -> Result<Answer, AllocError>
    ensures { PassesSome (F.events disk.now log.old) (F.events disk.now log.new) (Probes (F.facts disk.now) task.now sources.now (made_reply result)) }
{
    match read(task.fen.as_bytes()) {
        Err(fault) => Ok(Answer::Refused(Refusal::Fen(fault))),
        Ok(position) => answer_position(alloc, log, task, sources, disk, &position),
    }
}
