//! Answers as JSON: one object a line.

ghost use Rattle.std.specs.Prelude.{◌≡◌, ◌++◌, IfOk, OnErr, OnOk, codes, false, true};
ghost use Rattle.std.specs.Io.KnownBytes.{Appends};
ghost use Rattle.table_commands.specs.Inside.JsonLines.{IsPositionLine};
ghost use Rattle.answer_parts.specs.Asked.{reply_of};
ghost use Rattle.table_commands.specs.FolderAnswers.{refused_table_in};
ghost use Rattle.answer_parts.specs.JsonAnswers.{json_reply};
ghost use Rattle.answer_parts.specs.Reply.{IsText};
ghost use Rattle.board_core.specs.Position.{IsPosition};
ghost use Rattle.fen_text.specs.Fen.{SpellsPosition};
ghost use Rattle.json_lines.specs.Told.{is_done};
ghost use Rattle.table_folder.specs.Faults.{file_fault_name};
ghost use Rattle.json_lines.specs.Objects.{json_text, line_json};
ghost use Rattle.json_lines.specs.declared.told.JsonLine.TheVariants as line;
ghost use Rattle.move_msg.specs.TextLines.{ended};
ghost use Rattle.table_commands.specs.Inside.Answering.{ObjectMade, ObjectLacked};

use crate::folders::OpenFolder;
use answer_parts::Answer;
use arrayvec::ArrayString;
use board_core::Position;
use fen_text::read;
use json_lines::{Ask, JsonLine, put_json_line};
use judge_core::Set;
use line_events::{LineAnswerer, write_answer};
use line_teller::TellFault;
use std::alloc::{AllocError, Global};
use std::io::Write;
use system_io::WriteFault;
use table_folder::FileRefusal;
use timeline::System;

/// Writes an object and a line feed.
fn put_json<W: Write>(out: &mut W, line: &JsonLine) -> Result<(), WriteFault>
    ensures { OnOk result (Appends (W.contents out.old) (W.contents out.new) (ended (json_text (line_json line.now)))) }
{
    put_json_line(out, line)?;
    match out.write_all(b"\n") {
        Ok(()) => Ok(()),
        Err(_) => Err(WriteFault::Io),
    }
}

/// The text of an object, with its line feed.
fn text_of(alloc: Global, line: &JsonLine) -> Result<Vec<u8>, AllocError>
    ensures { IfOk result (λ text. text.items ≡ ended (json_text (line_json line.now))) }
{
    let mut text = Vec::new(alloc);
    match put_json(&mut text, line) {
        Ok(()) => Ok(text),
        Err(_) => Err(AllocError),
    }
}

/// The answer that is this object.
pub(crate) fn answer_as_json(alloc: Global, line: &JsonLine) -> Result<Answer, AllocError>
    ensures { IfOk result (λ a. reply_of a ≡ json_reply line.now) }
{
    match text_of(alloc, line) {
        Ok(text) => Ok(Answer::Text(text, line.is_done())),
        Err(fault) => Err(fault),
    }
}

/// The answer that is an object. Memory is taken for it, but where a text is no position.
fn answer_of(alloc: Global, told: &JsonLine) -> Result<Answer, AllocError>
    ensures is { IfOk result (λ a. reply_of a ≡ json_reply told.now) }
    ensures memory { OnErr result (IsPositionLine told.now) }
{
    match told {
        JsonLine::Fault(fault) => Ok(Answer::JsonFault(*fault)),
        _ => answer_as_json(alloc, told),
    }
}

/// Answers a line with an object of JSON for its position.
#[derive(Drop)]
pub(crate) struct JsonAnswerer<'a> {
    /// The allocator.
    pub(crate) alloc: Global,
    /// The tables.
    pub(crate) set: Set<'a>,
    /// How these are asked for values.
    pub(crate) ask: Ask,
    /// Whether the object has the legal moves.
    pub(crate) with_moves: bool,
}

impl<'a, S: System> LineAnswerer<S> for JsonAnswerer<'a> {
    ghost use Rattle.line_events.specs.Writing.{at_once};
    ghost use Rattle.table_commands.specs.JsonAnswers.{TellsJson};
    ghost use Rattle.answer_parts.specs.Reply.{IsText};

    ghost Known = { Unit {0} };

    ghost reads_from = { λ _ _. Unit {0} };

    ghost known = { λ _. tt };

    ghost answering = { λ t. at_once (TellsJson t.ask t.with_moves t.set.tables) IsText };

    fn answer_line(
        &mut self,
        system: &S,
        timeline: &mut S::Timeline,
        line: &[u8],
    ) -> Result<bool, TellFault> {
        let told = match JsonLine::of_text(
            self.alloc,
            &mut self.set,
            line,
            self.ask,
            self.with_moves,
        ) {
            Ok(told) => told,
            Err(_) => return Err(TellFault::OutOfMemory),
        };
        match answer_of(self.alloc, &told) {
            Ok(answer) => write_answer(system, timeline, &answer),
            Err(_) => Err(TellFault::OutOfMemory),
        }
    }
}

/// The words that refuse the file of a table: its name and what is wrong with it.
fn refused_words(refusal: &FileRefusal) -> ArrayString<64>
    ensures { result.bytes ≡ refusal.now.name.bytes ++ codes " " ++ file_fault_name refusal.now.fault }
{
    let mut words = ArrayString::new();
    words.push_str(refusal.name.as_str());
    words.push_str(" ");
    words.push_str(refusal.fault.name());
    words
}

/// The object that refuses the file of a table.
pub(crate) fn refused_line(refusal: &FileRefusal) -> JsonLine
    ensures text { json_text (line_json result) ≡ refused_table_in true refusal.now }
    ensures done { is_done result ≡ false }
    ensures position { IsPositionLine result }
{
    JsonLine::Refused(refused_words(refusal))
}

/// Answers a line with an object of JSON for its position, by the tables of a folder, of which those are read that it asks for.
#[derive(Drop)]
pub(crate) struct FolderJsonAnswerer<'r, 's, S: System> {
    /// The allocator.
    pub(crate) alloc: Global,
    /// The folder.
    pub(crate) folder: OpenFolder<'r, 's, S>,
    /// Whether the object has the legal moves.
    pub(crate) with_moves: bool,
}

impl<'r, 's, S: System> FolderJsonAnswerer<'r, 's, S> {
    /// The object of a position, or that of the refusal of a file.
    fn line_at(
        &mut self,
        timeline: &mut S::Timeline,
        text: &[u8],
        position: &Position,
    ) -> Result<JsonLine, AllocError>
        requires spelled { SpellsPosition text.now position.now }
        requires position { IsPosition position.now }
        ensures told { ObjectMade (S.outside self.old.folder.on.disk.system.now) self.old self.new timeline.old timeline.new text.now result }
        ensures room { ObjectLacked (S.outside self.old.folder.on.disk.system.now) self.old timeline.old timeline.new text.now result }
        ensures folder { self.new.folder.on ≡ self.old.folder.on }
        ensures moves { self.new.with_moves ≡ self.old.with_moves }
    {
        match self.folder.json_line(timeline, position, self.with_moves) {
            Ok(Ok(line)) => Ok(line),
            Ok(Err(refusal)) => Ok(refused_line(&refusal)),
            Err(fault) => Err(fault),
        }
    }

    /// The object of a line.
    fn line_of(&mut self, timeline: &mut S::Timeline, text: &[u8]) -> Result<JsonLine, AllocError>
        ensures told { ObjectMade (S.outside self.old.folder.on.disk.system.now) self.old self.new timeline.old timeline.new text.now result }
        ensures position { IfOk result (λ l. IsPositionLine l → IsText text.now) }
        ensures room { ObjectLacked (S.outside self.old.folder.on.disk.system.now) self.old timeline.old timeline.new text.now result }
        ensures folder { self.new.folder.on ≡ self.old.folder.on }
        ensures moves { self.new.with_moves ≡ self.old.with_moves }
    {
        match read(text) {
            Ok(position) => self.line_at(timeline, text, &position),
            Err(fault) => Ok(JsonLine::Fault(fault)),
        }
    }
}

impl<'r, 's, S: System> LineAnswerer<S> for FolderJsonAnswerer<'r, 's, S> {
    ghost use Rattle.std.specs.Prelude.{◌≡◌};
    ghost use Rattle.judge_core.specs.Tables.{Tables};
    ghost use Rattle.table_commands.specs.JsonAnswers.{json_lines_in};

    ghost Known = { Tables };

    ghost reads_from = { λ t system. t.folder.on.disk.system.now ≡ system };

    ghost known = { λ t. t.folder.tables };

    ghost answering = { λ t. json_lines_in t.with_moves (S.outside t.folder.on.disk.system.now).disk t.folder.on.folder };

    fn answer_line(
        &mut self,
        system: &S,
        timeline: &mut S::Timeline,
        line: &[u8],
    ) -> Result<bool, TellFault> {
        let told = match self.line_of(timeline, line) {
            Ok(told) => told,
            Err(_) => return Err(TellFault::OutOfMemory),
        };
        match answer_of(self.alloc, &told) {
            Ok(answer) => write_answer(system, timeline, &answer),
            Err(_) => Err(TellFault::OutOfMemory),
        }
    }
}
