//! `probes`: the values of the positions of the input in tables, a line each.

ghost use Rattle.std.specs.Prelude.{◌≡◌, IfOk, OnErr};
ghost use Rattle.board_core.specs.Position.{IsPosition};
ghost use Rattle.fen_text.specs.Fen.{SpellsPosition};
ghost use Rattle.table_commands.specs.Probes.{TellsKnown, TellsLine};
ghost use Rattle.answer_parts.specs.Lines.{words_of};
ghost use Rattle.judge_core.specs.ProbeResult.{numbered};
ghost use Rattle.answer_parts.specs.Reply.{IsText};
ghost use Rattle.table_commands.specs.Inside.Answering.{ColumnsMade, ColumnsLacked};

use crate::folders::OpenFolder;
use crate::json_answers::{FolderJsonAnswerer, JsonAnswerer};
use crate::line_tasks::LineTask;
use crate::questions::ColumnsOf;
use answer_parts::{Answer, Line, Refusal};
use board_core::Position;
use command_line::{Megabytes, Probes, read_when_asked};
use fen_text::read;
use json_lines::Ask;
use judge_core::{Column, ProbeFault, Set, Wdl};
use line_events::{LineAnswerer, answer_lines, write_answer};
use line_teller::TellFault;
use std::alloc::{AllocError, Global};
use system_io::WriteFault;
use task_files::InputPaths;
use timeline::System;

/// The values of a position in the tables, in columns, and whether both are there.
fn columns(
    ask: Ask,
    alloc: Global,
    set: &mut Set<'_>,
    text: &[u8],
    position: &Position,
) -> Result<(Line, bool), AllocError>
    requires spelled { SpellsPosition text.now position.now }
    requires position { IsPosition position.now }
    ensures told { IfOk result (λ told. TellsLine ask set.old.tables text.now (record { words = words_of told.0; done = told.1 })) }
    ensures unchanged { set.new.tables ≡ set.old.tables }
{
    let columns = ask.answers(alloc, set, position)?;
    Ok((Line::Columns(columns), columns.probed.has_both()))
}

/// The answer to a line, and whether it is complete.
fn probe_line(
    ask: Ask,
    alloc: Global,
    set: &mut Set<'_>,
    text: &[u8],
) -> Result<(Line, bool), AllocError>
    ensures told { IfOk result (λ told. TellsLine ask set.old.tables text.now (record { words = words_of told.0; done = told.1 })) }
    ensures unchanged { set.new.tables ≡ set.old.tables }
    ensures memory { OnErr result (IsText text.now) }
{
    match read(text) {
        Ok(position) => columns(ask, alloc, set, text, &position),
        Err(fault) => Ok((Line::Refused(Refusal::Fen(fault)), false)),
    }
}

/// Answers a line with the values of its position in tables.
#[derive(Drop)]
struct Prober<'a> {
    /// How the tables are asked.
    ask: Ask,
    /// The allocator.
    alloc: Global,
    /// The tables.
    set: Set<'a>,
}

impl<'a, S: System> LineAnswerer<S> for Prober<'a> {
    ghost use Rattle.line_events.specs.Writing.{at_once};
    ghost use Rattle.answer_parts.specs.Reply.{IsText};
    ghost use Rattle.table_commands.specs.Probes.{TellsLine};

    ghost Known = { Unit {0} };

    ghost reads_from = { λ _ _. Unit {0} };

    ghost known = { λ _. tt };

    ghost answering = { λ p. at_once (TellsLine p.ask p.set.tables) IsText };

    fn answer_line(
        &mut self,
        system: &S,
        timeline: &mut S::Timeline,
        line: &[u8],
    ) -> Result<bool, TellFault> {
        match probe_line(self.ask, self.alloc, &mut self.set, line) {
            Ok((told, done)) => write_answer(system, timeline, &Answer::One(told, done)),
            Err(_) => Err(TellFault::OutOfMemory),
        }
    }
}

/// A value as a number, or why there is none.
fn number_of(told: Result<Wdl, ProbeFault>) -> Result<i32, ProbeFault>
    ensures { result ≡ numbered told }
{
    match told {
        Ok(value) => Ok(i32::from(value.number())),
        Err(fault) => Err(fault),
    }
}

/// The value of a position as soon as it is known, and whether there is one.
fn known(alloc: Global, set: &mut Set<'_>, text: &[u8], position: &Position) -> (Line, bool)
    requires spelled { SpellsPosition text.now position.now }
    requires position { IsPosition position.now }
    ensures told { TellsKnown set.old.tables text.now (record { words = words_of result.0; done = result.1 }) }
    ensures unchanged { set.new.tables ≡ set.old.tables }
{
    let told = set.known_wdl(alloc, position);
    let is_told = told.is_ok();
    (Line::Value(Column(number_of(told))), is_told)
}

/// The answer to a line by the value as soon as it is known, and whether it is complete.
fn known_line(alloc: Global, set: &mut Set<'_>, text: &[u8]) -> (Line, bool)
    ensures told { TellsKnown set.old.tables text.now (record { words = words_of result.0; done = result.1 }) }
    ensures unchanged { set.new.tables ≡ set.old.tables }
{
    match read(text) {
        Ok(position) => known(alloc, set, text, &position),
        Err(fault) => (Line::Refused(Refusal::Fen(fault)), false),
    }
}

/// Answers a line with the value of its position as soon as it is known.
#[derive(Drop)]
struct SoonProber<'a> {
    /// The allocator.
    alloc: Global,
    /// The tables.
    set: Set<'a>,
}

impl<'a, S: System> LineAnswerer<S> for SoonProber<'a> {
    ghost use Rattle.line_events.specs.Writing.{at_once};
    ghost use Rattle.answer_parts.specs.Reply.{IsText};
    ghost use Rattle.table_commands.specs.Probes.{TellsKnown};

    ghost Known = { Unit {0} };

    ghost reads_from = { λ _ _. Unit {0} };

    ghost known = { λ _. tt };

    ghost answering = { λ p. at_once (TellsKnown p.set.tables) IsText };

    fn answer_line(
        &mut self,
        system: &S,
        timeline: &mut S::Timeline,
        line: &[u8],
    ) -> Result<bool, TellFault> {
        let (told, done) = known_line(self.alloc, &mut self.set, line);
        write_answer(system, timeline, &Answer::One(told, done))
    }
}

/// Answers a line with the values of its position in the tables of a folder, of which those are read that it asks for.
#[derive(Drop)]
struct FolderProber<'r, 's, S: System> {
    /// The folder.
    folder: OpenFolder<'r, 's, S>,
}

impl<'r, 's, S: System> FolderProber<'r, 's, S> {
    /// The values of a position in the tables, in columns, and whether both are there; or the refusal of a file.
    fn columns(
        &mut self,
        timeline: &mut S::Timeline,
        text: &[u8],
        position: &Position,
    ) -> Result<(Line, bool), AllocError>
        requires spelled { SpellsPosition text.now position.now }
        requires position { IsPosition position.now }
        ensures told { ColumnsMade (S.outside self.old.folder.on.disk.system.now) self.old.folder self.new.folder timeline.old timeline.new text.now result }
        ensures room { ColumnsLacked (S.outside self.old.folder.on.disk.system.now) self.old.folder timeline.old timeline.new text.now result }
        ensures folder { self.new.folder.on ≡ self.old.folder.on }
    {
        match self.folder.ask(timeline, &ColumnsOf { position }) {
            Ok(Ok(columns)) => Ok((Line::Columns(columns), columns.probed.has_both())),
            Ok(Err(refused)) => Ok((
                Line::Refused(Refusal::File(refused.name, refused.fault)),
                false,
            )),
            Err(fault) => Err(fault),
        }
    }

    /// The answer to a line, and whether it is complete.
    fn answer(
        &mut self,
        timeline: &mut S::Timeline,
        text: &[u8],
    ) -> Result<(Line, bool), AllocError>
        ensures told { ColumnsMade (S.outside self.old.folder.on.disk.system.now) self.old.folder self.new.folder timeline.old timeline.new text.now result }
        ensures room { ColumnsLacked (S.outside self.old.folder.on.disk.system.now) self.old.folder timeline.old timeline.new text.now result }
        ensures folder { self.new.folder.on ≡ self.old.folder.on }
    {
        match read(text) {
            Ok(position) => self.columns(timeline, text, &position),
            Err(fault) => Ok((Line::Refused(Refusal::Fen(fault)), false)),
        }
    }
}

impl<'r, 's, S: System> LineAnswerer<S> for FolderProber<'r, 's, S> {
    ghost use Rattle.std.specs.Prelude.{◌≡◌};
    ghost use Rattle.judge_core.specs.Tables.{Tables};
    ghost use Rattle.table_commands.specs.Probes.{column_lines_in};

    ghost Known = { Tables };

    ghost reads_from = { λ p system. p.folder.on.disk.system.now ≡ system };

    ghost known = { λ p. p.folder.tables };

    ghost answering = { λ p. column_lines_in (S.outside p.folder.on.disk.system.now).disk p.folder.on.folder };

    fn answer_line(
        &mut self,
        system: &S,
        timeline: &mut S::Timeline,
        line: &[u8],
    ) -> Result<bool, TellFault> {
        match self.answer(timeline, line) {
            Ok((told, done)) => write_answer(system, timeline, &Answer::One(told, done)),
            Err(_) => Err(TellFault::OutOfMemory),
        }
    }
}

/// Answers each line with the values of its position in tables. With `--json` an answer is one object (RFC 8259). With `--determined` values and
/// distances are also those that are the same whatever the missing tables hold; the verdict stays. With `--soon` an answer is the value alone,
/// as soon as it is known.
impl<'a> LineTask for Probes<'a> {
    ghost use Rattle.table_commands.specs.Probes.{probes_asking};

    ghost asking = { probes_asking };

    fn names(&self) -> InputPaths<'_> {
        self.places()
    }

    fn asked_folder(&self) -> Option<&str> {
        read_when_asked(self.is_lazy(), Some(self.tables))
    }

    fn memory(&self) -> Option<Megabytes> {
        self.memory
    }

    fn answer_by_folder<S: System>(
        &self,
        alloc: Global,
        folder: OpenFolder<'_, '_, S>,
        system: &S,
        timeline: &mut S::Timeline,
    ) -> Result<u8, WriteFault> {
        if self.json {
            let with_moves = false;
            let mut answerer = FolderJsonAnswerer {
                alloc,
                folder,
                with_moves,
            };
            answer_lines(alloc, &mut answerer, system, timeline, self.progress)
        } else {
            let mut prober = FolderProber { folder };
            answer_lines(alloc, &mut prober, system, timeline, self.progress)
        }
    }

    fn answer_by_tables<S: System>(
        &self,
        alloc: Global,
        set: Set<'_>,
        system: &S,
        timeline: &mut S::Timeline,
    ) -> Result<u8, WriteFault> {
        let ask = Ask::of(self.determined);
        if self.soon {
            let mut prober = SoonProber { alloc, set };
            answer_lines(alloc, &mut prober, system, timeline, self.progress)
        } else if self.json {
            let with_moves = false;
            let mut answerer = JsonAnswerer {
                alloc,
                set,
                ask,
                with_moves,
            };
            answer_lines(alloc, &mut answerer, system, timeline, self.progress)
        } else {
            let mut prober = Prober { ask, alloc, set };
            answer_lines(alloc, &mut prober, system, timeline, self.progress)
        }
    }
}
