//! `root`: the legal moves of a position, or of those of the input, by their values in tables.

ghost use Rattle.std.specs.Prelude.{◌≡◌, IfOk, IsErrOf, OnErr, false, true};
ghost use Rattle.answer_parts.specs.Asked.{reply_of};
ghost use Rattle.answer_parts.specs.Looks.{gathered};
ghost use Rattle.answer_parts.specs.Printing.{OutputFails};
ghost use Rattle.answer_parts.specs.Reply.{ByTables, IsForText, IsText, refusal_reply};
ghost use Rattle.board_core.specs.Position.{IsPosition};
ghost use Rattle.fen_text.specs.Fen.{SpellsPosition};
ghost use Rattle.judge_core.specs.Words.{columns_words};
ghost use Rattle.table_commands.specs.FolderAnswers.{refused_table_in};
ghost use Rattle.table_commands.specs.FolderReads.{made_reply, MakesFrom};
ghost use Rattle.table_commands.specs.JsonAnswers.{IsJsonTold, refused_in};
ghost use Rattle.table_commands.specs.Root.{IsRootReply, IsToldIn, RanksText, refused_words, root_reply, RanksGiven};
ghost use Rattle.table_folder.specs.Reads.{PassesSome};
ghost use Rattle.timeline.specs.Outsides.{AddsSome};
ghost use Rattle.table_commands.specs.Inside.Asking.{RanksIn};
ghost use Rattle.table_commands.specs.Inside.Answering.{MovesMade, MovesLacked, WritesWithFeed};

use crate::folders::{FolderPlace, OpenFolder, ask_at};
use crate::json_answers::{FolderJsonAnswerer, JsonAnswerer, answer_as_json, refused_line};
use crate::line_tasks::LineTask;
use crate::questions::{JsonOf, MovesOf};
use answer_parts::{Answer, Line, Refusal, RootLine, gather, print_reply};
use board_core::Position;
use command_line::{CacheSize, Megabytes, Root, read_when_asked};
use fen_text::{FenFault, read};
use json_lines::{Ask, JsonLine};
use judge_core::{Columns, RootMove, Set};
use line_events::{LineAnswerer, answer_lines};
use line_teller::TellFault;
use std::alloc::{AllocError, Global};
use system_io::WriteFault;
use table_folder::{FileRefusal, TableFiles};
use task_files::{InputPaths, Inputs};
use timeline::{Stream, System};

/// A line for each move, and then the position's own.
fn lines_of(alloc: Global, moves: &[RootMove], columns: Columns) -> Result<Answer, AllocError>
    ensures { IfOk result (λ a. reply_of a ≡ root_reply moves.now columns.probed (columns_words columns.probed.wdl columns.probed.dtz columns.verdict)) }
{
    let mut lines = Vec::new(alloc);
    let mut done = columns.probed.has_both();
    for m in moves {
        let line = RootLine::of(m);
        done &= line.probed.has_both();
        lines.push(Line::Root(line))?;
    }
    lines.push(Line::Columns(columns))?;
    Ok(Answer::Lines(lines, done))
}

/// What the tables tell of the legal moves of a position, and of the position.
pub(crate) fn told_by(
    ask: Ask,
    alloc: Global,
    set: &mut Set<'_>,
    position: &Position,
) -> Result<Answer, AllocError>
    ensures told { IfOk result (λ a. IsRootReply ask set.old.tables position.now (reply_of a)) }
    ensures unchanged { set.new.tables ≡ set.old.tables }
{
    let columns = ask.answers(alloc, set, position)?;
    match ask.root(alloc, set, position) {
        Ok(Some(moves)) => lines_of(alloc, &moves, columns),
        Ok(None) => lines_of(alloc, &[], columns),
        Err(fault) => Err(fault),
    }
}

/// The answer to a line of the input.
fn answer_line(
    ask: Ask,
    alloc: Global,
    set: &mut Set<'_>,
    text: &[u8],
) -> Result<Answer, AllocError>
    ensures told { IfOk result (λ a. IsForText text.now (IsRootReply ask set.old.tables) (reply_of a)) }
    ensures memory { OnErr result (IsText text.now) }
    ensures unchanged { set.new.tables ≡ set.old.tables }
{
    match read(text) {
        Err(fault) => Ok(Answer::Refused(Refusal::Fen(fault))),
        Ok(position) => told_by(ask, alloc, set, &position),
    }
}

/// What the tables tell of the legal moves of a position, and of the position, as JSON.
fn told_as_json(
    ask: Ask,
    alloc: Global,
    set: &mut Set<'_>,
    position: &Position,
) -> Result<Answer, AllocError>
    ensures { IfOk result (λ a. IsJsonTold ask set.old.tables position.now (reply_of a)) }
{
    let with_moves = true;
    match JsonLine::of_position(alloc, set, position, ask, with_moves) {
        Ok(line) => answer_as_json(alloc, &line),
        Err(fault) => Err(fault),
    }
}

/// What the tables tell of the legal moves of a position, and of the position, as JSON or in lines.
fn told_in(
    ask: Ask,
    alloc: Global,
    set: &mut Set<'_>,
    position: &Position,
    json: bool,
) -> Result<Answer, AllocError>
    ensures { IfOk result (λ a. IsToldIn json ask set.old.tables position.now (reply_of a)) }
{
    if json {
        told_as_json(ask, alloc, set, position)
    } else {
        told_by(ask, alloc, set, position)
    }
}

/// What the tables of files tell of the legal moves of a position, or the refusal of these: of a malformed manifest,
/// then of the first file at fault.
fn told_of(
    ask: Ask,
    alloc: Global,
    sources: &Inputs,
    position: &Position,
    json: bool,
) -> Result<Answer, AllocError>
    ensures { IfOk result (λ a. ByTables (gathered sources.now) (IsToldIn json ask) position.now (reply_of a)) }
{
    match gather(alloc, sources, CacheSize::usual()) {
        Ok(Ok(mut set)) => told_in(ask, alloc, &mut set, position, json),
        Ok(Err(refusal)) => Ok(Answer::Refused(refusal)),
        Err(_) => Err(AllocError),
    }
}

/// The refusal of the file of a table, as JSON or as a line.
fn refused_table_in(alloc: Global, refusal: FileRefusal, json: bool) -> Result<Answer, AllocError>
    ensures { IfOk result (λ a. reply_of a ≡ refusal_reply (refused_table_in json refusal)) }
{
    if json {
        answer_as_json(alloc, &refused_line(&refusal))
    } else {
        Ok(Answer::Refused(Refusal::File(refusal.name, refusal.fault)))
    }
}

/// The refusal of the file of a table, as JSON or as a line, or another one as a line.
fn refused_as(alloc: Global, refusal: Refusal, json: bool) -> Result<Answer, AllocError>
    ensures { IfOk result (λ a. reply_of a ≡ refusal_reply (refused_words json refusal)) }
{
    if let Refusal::File(name, fault) = refusal {
        return refused_table_in(alloc, FileRefusal { name, fault }, json);
    }
    Ok(Answer::Refused(refusal))
}

/// What the tables of a folder tell of the legal moves of a position, and of the position, as JSON; those are read that the position and
/// those after its moves ask for. Or the refusal: of a malformed manifest, then of the folder, then of the first file that is asked for and
/// at fault.
fn json_in<F: TableFiles>(
    alloc: Global,
    log: &mut F::Log,
    place: &FolderPlace<'_, F>,
    position: &Position,
) -> Result<Answer, AllocError>
    ensures { RanksIn F.facts F.events place.now log.old log.new true position.now result }
{
    match ask_at(alloc, log, place, &JsonOf { position })? {
        Ok(line) => answer_as_json(alloc, &line),
        Err(refusal) => refused_as(alloc, refusal, true),
    }
}

/// The same in lines.
fn lines_by<F: TableFiles>(
    alloc: Global,
    log: &mut F::Log,
    place: &FolderPlace<'_, F>,
    position: &Position,
) -> Result<Answer, AllocError>
    ensures { RanksIn F.facts F.events place.now log.old log.new false position.now result }
{
    match ask_at(alloc, log, place, &MovesOf { position })? {
        Ok(answer) => Ok(answer),
        Err(refusal) => refused_as(alloc, refusal, false),
    }
}

/// What tables of a folder tell of the legal moves of a position, as JSON or in lines, or the refusal.
fn ranked_in<F: TableFiles>(
    alloc: Global,
    log: &mut F::Log,
    place: &FolderPlace<'_, F>,
    position: &Position,
    json: bool,
) -> Result<Answer, AllocError>
    ensures { RanksIn F.facts F.events place.now log.old log.new json position.now result }
{
    if json {
        json_in(alloc, log, place, position)
    } else {
        lines_by(alloc, log, place, position)
    }
}

/// What is told of a position by the tables that it and those after its moves ask for, or by those that were read.
fn answer_position<F: TableFiles>(
    alloc: Global,
    log: &mut F::Log,
    task: &Root<'_>,
    sources: &Inputs,
    disk: &F,
    position: &Position,
) -> Result<Answer, AllocError>
    ensures { MakesFrom F.facts F.events disk.now log.old log.new (λ disk. RanksGiven disk task.now sources.now position.now) result }
{
    match read_when_asked(task.is_lazy(), Some(task.tables)) {
        Some(path) => {
            let manifest = sources.manifest();
            let place = FolderPlace {
                disk,
                path,
                manifest,
            };
            ranked_in(alloc, log, &place, position, task.json)
        }
        None => {
            let ask = Ask::of(task.determined);
            told_of(ask, alloc, sources, position, task.json)
        }
    }
}

/// The refusal of a text that is no position, as JSON or as a line.
fn refused_in(fault: FenFault, json: bool) -> Answer
    ensures { reply_of result ≡ refused_in json fault }
{
    if json {
        Answer::JsonFault(fault)
    } else {
        Answer::Refused(Refusal::Fen(fault))
    }
}

/// What tables tell of the position of a text: a line for each legal move, the best first, and then the line of `probes`; with `--json` one
/// object (RFC 8259). A text that is no position is refused first. A table is read when the position, or one after a legal move of it, asks
/// for it. With `--all-tables` or `--determined` all are read before, and the first file at fault is refused.
pub fn answer_text<F: TableFiles>(
    alloc: Global,
    log: &mut F::Log,
    task: &Root<'_>,
    sources: &Inputs,
    disk: &F,
    text: &str,
) -> Result<Answer, AllocError>
    ensures { PassesSome (F.events disk.now log.old) (F.events disk.now log.new) (RanksText text.now (F.facts disk.now) task.now sources.now (made_reply result)) }
{
    match read(text.as_bytes()) {
        Err(fault) => Ok(refused_in(fault, task.json)),
        Ok(position) => answer_position(alloc, log, task, sources, disk, &position),
    }
}

/// Writes an answer and an empty line, and returns whether the answer is complete. The error comes only where the output failed; a front of
/// them is written then.
fn write_with_empty_line<S: System>(
    system: &S,
    timeline: &mut S::Timeline,
    answer: &Answer,
) -> Result<bool, TellFault>
    ensures made { AddsSome (S.outside system.now) timeline.old timeline.new (WritesWithFeed (reply_of answer.now) result) }
    ensures cause { IsErrOf result TellFault.Io → OutputFails (S.outside system.now) }
{
    match print_reply(system, timeline, answer) {
        Ok(status) => match system.write(timeline, Stream::Output, b"\n") {
            Ok(()) => Ok(status == 0),
            Err(_) => Err(TellFault::Io),
        },
        Err(_) => Err(TellFault::Io),
    }
}

/// Answers a line with the legal moves of its position by their values in tables.
#[derive(Drop)]
struct Ranker<'a> {
    /// How the tables are asked.
    ask: Ask,
    /// The allocator.
    alloc: Global,
    /// The tables.
    set: Set<'a>,
}

impl<'a, S: System> LineAnswerer<S> for Ranker<'a> {
    ghost use Rattle.line_events.specs.Writing.{at_once};
    ghost use Rattle.answer_parts.specs.Reply.{IsText};
    ghost use Rattle.table_commands.specs.Root.{TellsLine};

    ghost Known = { Unit {0} };

    ghost reads_from = { λ _ _. Unit {0} };

    ghost known = { λ _. tt };

    ghost answering = { λ p. at_once (TellsLine p.ask p.set.tables) IsText };

    fn answer_line(
        &mut self,
        system: &S,
        timeline: &mut S::Timeline,
        line: &[u8],
    ) -> Result<bool, TellFault> {
        match answer_line(self.ask, self.alloc, &mut self.set, line) {
            Ok(answer) => write_with_empty_line(system, timeline, &answer),
            Err(_) => Err(TellFault::OutOfMemory),
        }
    }
}

/// Answers a line with the legal moves of its position by their values in the tables of a folder, of which those are read that it asks
/// for.
#[derive(Drop)]
struct FolderRanker<'r, 's, S: System> {
    /// The folder.
    folder: OpenFolder<'r, 's, S>,
}

impl<'r, 's, S: System> FolderRanker<'r, 's, S> {
    /// The answer to a line that spells a position.
    fn answer_at(
        &mut self,
        timeline: &mut S::Timeline,
        text: &[u8],
        position: &Position,
    ) -> Result<Answer, AllocError>
        requires spelled { SpellsPosition text.now position.now }
        requires position { IsPosition position.now }
        ensures told { MovesMade (S.outside self.old.folder.on.disk.system.now) self.old.folder self.new.folder timeline.old timeline.new text.now result }
        ensures room { MovesLacked (S.outside self.old.folder.on.disk.system.now) self.old.folder timeline.old timeline.new text.now result }
        ensures folder { self.new.folder.on ≡ self.old.folder.on }
    {
        match self.folder.ask(timeline, &MovesOf { position }) {
            Ok(Ok(answer)) => Ok(answer),
            Ok(Err(refused)) => Ok(Answer::Refused(Refusal::File(refused.name, refused.fault))),
            Err(fault) => Err(fault),
        }
    }

    /// The answer to a line.
    fn answer(&mut self, timeline: &mut S::Timeline, text: &[u8]) -> Result<Answer, AllocError>
        ensures told { MovesMade (S.outside self.old.folder.on.disk.system.now) self.old.folder self.new.folder timeline.old timeline.new text.now result }
        ensures room { MovesLacked (S.outside self.old.folder.on.disk.system.now) self.old.folder timeline.old timeline.new text.now result }
        ensures folder { self.new.folder.on ≡ self.old.folder.on }
    {
        match read(text) {
            Ok(position) => self.answer_at(timeline, text, &position),
            Err(fault) => Ok(Answer::Refused(Refusal::Fen(fault))),
        }
    }
}

impl<'r, 's, S: System> LineAnswerer<S> for FolderRanker<'r, 's, S> {
    ghost use Rattle.std.specs.Prelude.{◌≡◌};
    ghost use Rattle.judge_core.specs.Tables.{Tables};
    ghost use Rattle.table_commands.specs.Root.{root_lines_in};

    ghost Known = { Tables };

    ghost reads_from = { λ p system. p.folder.on.disk.system.now ≡ system };

    ghost known = { λ p. p.folder.tables };

    ghost answering = { λ p. root_lines_in (S.outside p.folder.on.disk.system.now).disk p.folder.on.folder };

    fn answer_line(
        &mut self,
        system: &S,
        timeline: &mut S::Timeline,
        line: &[u8],
    ) -> Result<bool, TellFault> {
        match self.answer(timeline, line) {
            Ok(answer) => write_with_empty_line(system, timeline, &answer),
            Err(_) => Err(TellFault::OutOfMemory),
        }
    }
}

/// Answers each line with what tables tell of its position, as `answer_text` has it; an empty line follows each answer, but not an object.
impl<'a> LineTask for Root<'a> {
    ghost use Rattle.table_commands.specs.Root.{root_asking};

    ghost asking = { root_asking };

    fn names(&self) -> InputPaths<'_> {
        self.places()
    }

    fn asked_folder(&self) -> Option<&str> {
        read_when_asked(self.is_lazy(), Some(self.tables))
    }

    fn memory(&self) -> Option<Megabytes> {
        self.memory
    }

    fn answer_by_folder<S: System>(
        &self,
        alloc: Global,
        folder: OpenFolder<'_, '_, S>,
        system: &S,
        timeline: &mut S::Timeline,
    ) -> Result<u8, WriteFault> {
        if self.json {
            let with_moves = true;
            let mut answerer = FolderJsonAnswerer {
                alloc,
                folder,
                with_moves,
            };
            answer_lines(alloc, &mut answerer, system, timeline, false)
        } else {
            let mut ranker = FolderRanker { folder };
            answer_lines(alloc, &mut ranker, system, timeline, false)
        }
    }

    fn answer_by_tables<S: System>(
        &self,
        alloc: Global,
        set: Set<'_>,
        system: &S,
        timeline: &mut S::Timeline,
    ) -> Result<u8, WriteFault> {
        let ask = Ask::of(self.determined);
        if self.json {
            let with_moves = true;
            let mut answerer = JsonAnswerer {
                alloc,
                set,
                ask,
                with_moves,
            };
            answer_lines(alloc, &mut answerer, system, timeline, false)
        } else {
            let mut ranker = Ranker { ask, alloc, set };
            answer_lines(alloc, &mut ranker, system, timeline, false)
        }
    }
}
