//! `games`: the outcomes of the games of the input, a line each.

ghost use Rattle.std.specs.Prelude.{◌≡◌, position, IfOk, OnErr};
ghost use Rattle.board_core.specs.Position.{IsPosition};
ghost use Rattle.fen_text.specs.Fen.{SpellsPosition};
ghost use Rattle.move_msg.specs.GameTexts.{TellsMoves};
ghost use Rattle.table_commands.specs.Games.{HasStartFen, TellsGameLine, moves_in, start_in, tab_in};
ghost use Rattle.answer_parts.specs.Lines.{words_of};
ghost use Rattle.table_commands.specs.Inside.Answering.{OutcomeMade, OutcomeLacked};

use crate::folders::OpenFolder;
use crate::game::are_all_legal;
use crate::judging::Course;
use crate::line_tasks::LineTask;
use answer_parts::{Answer, Line, Refusal};
use board_core::{Delay, Move, Position};
use command_line::{FollowGames, Megabytes, read_when_asked};
use fen_text::read;
use judge_core::{Outcome, Set};
use line_events::{LineAnswerer, answer_lines, write_answer};
use line_teller::TellFault;
use move_msg::read_moves;
use std::alloc::{AllocError, Global};
use system_io::WriteFault;
use task_files::InputPaths;
use timeline::System;

/// The place of the first tab of a line.
fn tab_in(line: &[u8]) -> Option<usize>
    ensures { result ≡ tab_in line.now }
{
    line.iter().position(|byte| *byte == b'\t')
}

/// The FEN text of a line, before its first tab; all of it where it has none.
fn start_in(line: &[u8]) -> &[u8]
    ensures { result.now ≡ start_in line.now }
{
    match tab_in(line) {
        Some(tab) => &line[..tab],
        None => line,
    }
}

/// The text of a line's moves, behind its first tab; nothing where it has none.
fn moves_in(line: &[u8]) -> &[u8]
    ensures { result.now ≡ moves_in line.now }
{
    match tab_in(line) {
        Some(tab) => &line[tab + 1..],
        None => &[],
    }
}

/// Answers a line with the outcome of its game.
#[derive(Drop)]
struct GameJudge<'a> {
    /// The allocator.
    alloc: Global,
    /// The tables.
    set: Set<'a>,
    /// For how many further plies a verdict by tables must hold.
    delay: Delay,
}

impl<'a> GameJudge<'a> {
    /// The answer to a line whose start and moves are read, and whether it is complete.
    fn judge(
        &mut self,
        line: &[u8],
        start: &Position,
        moves: &[Move],
    ) -> Result<(Line, bool), AllocError>
        requires spelled { SpellsPosition (start_in line.now) start.now }
        requires position { IsPosition start.now }
        requires moves { TellsMoves (moves_in line.now) moves.now }
        ensures told { IfOk result (λ told. TellsGameLine self.old.delay self.old.set.tables line.now (record { words = words_of told.0; done = told.1 })) }
        ensures set { self.new.set ≡ self.old.set }
        ensures delay { self.new.delay ≡ self.old.delay }
    {
        let outcome = self
            .set
            .judge_game(self.alloc, start, moves, self.delay.plies())?;
        let line = Line::Outcome(Outcome {
            outcome,
            plies: moves.len(),
        });
        Ok((line, are_all_legal(outcome)))
    }

    /// The answer to a line whose start is read, and whether it is complete.
    fn answer_from(&mut self, line: &[u8], start: &Position) -> Result<(Line, bool), AllocError>
        requires spelled { SpellsPosition (start_in line.now) start.now }
        requires position { IsPosition start.now }
        ensures told { IfOk result (λ told. TellsGameLine self.old.delay self.old.set.tables line.now (record { words = words_of told.0; done = told.1 })) }
        ensures set { self.new.set ≡ self.old.set }
        ensures delay { self.new.delay ≡ self.old.delay }
    {
        match read_moves(self.alloc, moves_in(line))? {
            Ok(moves) => self.judge(line, start, &moves),
            Err(place) => Ok((Line::Refused(Refusal::Move(place)), false)),
        }
    }

    /// The answer to a line, and whether it is complete.
    fn answer(&mut self, line: &[u8]) -> Result<(Line, bool), AllocError>
        ensures told { IfOk result (λ told. TellsGameLine self.old.delay self.old.set.tables line.now (record { words = words_of told.0; done = told.1 })) }
        ensures set { self.new.set ≡ self.old.set }
        ensures delay { self.new.delay ≡ self.old.delay }
        ensures memory { OnErr result (HasStartFen line.now) }
    {
        match read(start_in(line)) {
            Ok(start) => self.answer_from(line, &start),
            Err(fault) => Ok((Line::Refused(Refusal::Fen(fault)), false)),
        }
    }
}

impl<'a, S: System> LineAnswerer<S> for GameJudge<'a> {
    ghost use Rattle.line_events.specs.Writing.{at_once};
    ghost use Rattle.table_commands.specs.Games.{HasStartFen, TellsGameLine};

    ghost Known = { Unit {0} };

    ghost reads_from = { λ _ _. Unit {0} };

    ghost known = { λ _. tt };

    ghost answering = { λ p. at_once (TellsGameLine p.delay p.set.tables) HasStartFen };

    fn answer_line(
        &mut self,
        system: &S,
        timeline: &mut S::Timeline,
        line: &[u8],
    ) -> Result<bool, TellFault> {
        match self.answer(line) {
            Ok((told, done)) => write_answer(system, timeline, &Answer::One(told, done)),
            Err(_) => Err(TellFault::OutOfMemory),
        }
    }
}

/// Answers a line with the outcome of its game, by the tables of a folder, of which those are read that it asks for.
#[derive(Drop)]
struct FolderGameJudge<'r, 's, S: System> {
    /// The allocator.
    alloc: Global,
    /// The folder.
    folder: OpenFolder<'r, 's, S>,
    /// For how many further plies a verdict by tables must hold.
    delay: Delay,
}

impl<'r, 's, S: System> FolderGameJudge<'r, 's, S> {
    /// The answer to a line whose start and moves are read, and whether it is complete.
    fn judge(
        &mut self,
        timeline: &mut S::Timeline,
        line: &[u8],
        start: &Position,
        moves: &[Move],
    ) -> Result<(Line, bool), AllocError>
        requires spelled { SpellsPosition (start_in line.now) start.now }
        requires position { IsPosition start.now }
        requires moves { TellsMoves (moves_in line.now) moves.now }
        ensures told { OutcomeMade (S.outside self.old.folder.on.disk.system.now) self.old self.new timeline.old timeline.new line.now result }
        ensures room { OutcomeLacked (S.outside self.old.folder.on.disk.system.now) self.old timeline.old timeline.new line.now result }
        ensures folder { self.new.folder.on ≡ self.old.folder.on }
        ensures delay { self.new.delay ≡ self.old.delay }
    {
        let delay = self.delay;
        let game = Course {
            start,
            moves,
            delay,
        };
        match self.folder.ask(timeline, &game) {
            Ok(Ok(outcome)) => {
                let plies = moves.len();
                let line = Line::Outcome(Outcome { outcome, plies });
                Ok((line, are_all_legal(outcome)))
            }
            Ok(Err(refused)) => Ok((
                Line::Refused(Refusal::File(refused.name, refused.fault)),
                false,
            )),
            Err(fault) => Err(fault),
        }
    }

    /// The answer to a line whose start is read, and whether it is complete.
    fn answer_from(
        &mut self,
        timeline: &mut S::Timeline,
        line: &[u8],
        start: &Position,
    ) -> Result<(Line, bool), AllocError>
        requires spelled { SpellsPosition (start_in line.now) start.now }
        requires position { IsPosition start.now }
        ensures told { OutcomeMade (S.outside self.old.folder.on.disk.system.now) self.old self.new timeline.old timeline.new line.now result }
        ensures room { OutcomeLacked (S.outside self.old.folder.on.disk.system.now) self.old timeline.old timeline.new line.now result }
        ensures folder { self.new.folder.on ≡ self.old.folder.on }
        ensures delay { self.new.delay ≡ self.old.delay }
    {
        match read_moves(self.alloc, moves_in(line)) {
            Ok(Ok(moves)) => self.judge(timeline, line, start, &moves),
            Ok(Err(place)) => Ok((Line::Refused(Refusal::Move(place)), false)),
            Err(fault) => Err(fault),
        }
    }

    /// The answer to a line, and whether it is complete.
    fn answer(
        &mut self,
        timeline: &mut S::Timeline,
        line: &[u8],
    ) -> Result<(Line, bool), AllocError>
        ensures told { OutcomeMade (S.outside self.old.folder.on.disk.system.now) self.old self.new timeline.old timeline.new line.now result }
        ensures room { OutcomeLacked (S.outside self.old.folder.on.disk.system.now) self.old timeline.old timeline.new line.now result }
        ensures folder { self.new.folder.on ≡ self.old.folder.on }
        ensures delay { self.new.delay ≡ self.old.delay }
    {
        match read(start_in(line)) {
            Ok(start) => self.answer_from(timeline, line, &start),
            Err(fault) => Ok((Line::Refused(Refusal::Fen(fault)), false)),
        }
    }
}

impl<'r, 's, S: System> LineAnswerer<S> for FolderGameJudge<'r, 's, S> {
    ghost use Rattle.std.specs.Prelude.{◌≡◌};
    ghost use Rattle.judge_core.specs.Tables.{Tables};
    ghost use Rattle.table_commands.specs.Games.{game_lines_in};

    ghost Known = { Tables };

    ghost reads_from = { λ p system. p.folder.on.disk.system.now ≡ system };

    ghost known = { λ p. p.folder.tables };

    ghost answering = { λ p. game_lines_in p.delay (S.outside p.folder.on.disk.system.now).disk p.folder.on.folder };

    fn answer_line(
        &mut self,
        system: &S,
        timeline: &mut S::Timeline,
        line: &[u8],
    ) -> Result<bool, TellFault> {
        match self.answer(timeline, line) {
            Ok((told, done)) => write_answer(system, timeline, &Answer::One(told, done)),
            Err(_) => Err(TellFault::OutOfMemory),
        }
    }
}

/// Answers each line with the outcome of its game.
///
/// A line is a FEN text, a tab and moves in coordinates, with spaces between them; without a tab it is a start alone. It is answered as
/// `game` answers it: `refused FEN ..` of its start, `refused move 2` of a word that is no move, `illegal 2`, `ruled 2 TableDraw` or
/// `open 2`. An answer is complete where all moves are legal.
impl<'a> LineTask for FollowGames<'a> {
    ghost use Rattle.table_commands.specs.Games.{games_asking};

    ghost asking = { games_asking };

    fn names(&self) -> InputPaths<'_> {
        self.places()
    }

    fn asked_folder(&self) -> Option<&str> {
        read_when_asked(!self.all_tables, Some(self.tables))
    }

    fn memory(&self) -> Option<Megabytes> {
        self.memory
    }

    fn answer_by_folder<S: System>(
        &self,
        alloc: Global,
        folder: OpenFolder<'_, '_, S>,
        system: &S,
        timeline: &mut S::Timeline,
    ) -> Result<u8, WriteFault> {
        let delay = self.delay;
        let mut judge = FolderGameJudge {
            alloc,
            folder,
            delay,
        };
        answer_lines(alloc, &mut judge, system, timeline, self.progress)
    }

    fn answer_by_tables<S: System>(
        &self,
        alloc: Global,
        set: Set<'_>,
        system: &S,
        timeline: &mut S::Timeline,
    ) -> Result<u8, WriteFault> {
        let delay = self.delay;
        let mut judge = GameJudge { alloc, set, delay };
        answer_lines(alloc, &mut judge, system, timeline, self.progress)
    }
}
