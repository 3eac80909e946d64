//! A game that is followed ply by ply as its moves come.

ghost use Rattle.std.specs.Prelude.{◌≡◌, ◌<◌, ◌^◌, ◌-◌, IfErr, IfOk, OnErr, Some};
ghost use Rattle.board_core.specs.ComputedMoves.{position_after};
ghost use Rattle.board_core.specs.declared.moves.Move.{Move as Moves};
ghost use Rattle.game_teller.specs.Followings.{FollowsInputMoves, stop_by};
ghost use Rattle.game_teller.specs.Inside.Steps.{Begins, FollowsIn, IsNoNext, PlaysIn, PrintsIn, PrintsPly, TurnsIn};
ghost use Rattle.game_teller.specs.Judges.{IsLater};
ghost use Rattle.answer_parts.specs.Printing.{OutputFails, Performs};
ghost use Rattle.line_teller.specs.ToldLines.{stops_by};
ghost use Rattle.move_notation.specs.Notations.{Spells};
ghost use Rattle.system_io.specs.declared.reading.ReadFault.{ReadFault};
ghost use Rattle.timeline.specs.Outsides.{AddsSome};

use crate::judging::PlyJudge;
use crate::lines::{Stop, print_ply, print_stop};
use board_core::{Delay, Position, Verdict};
use judge_core::Standing;
use move_notation::Notation;
use std::alloc::Global;
use system_io::{ReadFault, WriteFault};
use timeline::System;

/// A game that is followed.
#[derive(Drop)]
pub struct FollowedGame {
    /// How its moves are written.
    pub notation: Notation,
    /// The position before its first move.
    pub start: Position,
    /// For how many further plies a verdict by tables must hold.
    pub delay: Delay,
}

/// Where a game stands that is followed.
#[derive(Drop)]
pub(crate) struct FollowState {
    /// The allocator.
    alloc: Global,
    /// How its moves are written.
    notation: Notation,
    /// For how many further plies a verdict by tables must hold.
    delay: Delay,
    /// The number of the ply.
    ply: usize,
    /// Where the game stands there.
    standing: Standing,
}

/// What came of the next line.
#[derive(Clone, Copy)]
pub(crate) enum Step {
    /// The ply after its move is printed, which has this verdict, if any.
    Printed(Option<Verdict>),
    /// There is none.
    Ended,
    /// Why there is no such ply is printed, and nothing more is.
    Stopped,
}

/// The position after the move of a line.
fn next_position(
    notation: Notation,
    line: &[u8],
    position: &Position,
    number: usize,
) -> Result<Position, Stop>
    ensures ok { IfOk result (λ q. (m : Moves) × Spells notation position.now line.now m × (position_after position.now m ≡ Some q)) }
    ensures err { IfErr result (IsNoNext notation position.now number line.now) }
{
    let read = notation.read(position, line);
    let Some(m) = &read else {
        return Err(Stop::NotAMove(number));
    };
    match position.play(*m) {
        Some(next) => Ok(next),
        None => Err(Stop::Illegal(number)),
    }
}

/// Why no line is read.
fn stop_by(fault: ReadFault) -> Stop
    ensures { result ≡ stop_by fault }
{
    match fault {
        ReadFault::Unreadable => Stop::Unread,
        ReadFault::OutOfMemory => Stop::OutOfMemory,
    }
}

impl FollowState {
    /// Plays the move of a line, and judges the ply that it leads to.
    fn turn<S: System, J: PlyJudge<S>>(
        &mut self,
        judge: &mut J,
        system: &S,
        timeline: &mut S::Timeline,
        line: &[u8],
    ) -> Result<(), Stop>
        requires from { J.reads_from judge.old system.now }
        requires more { self.old.ply < 2 ^ 64 - 1 }
        ensures made { PlaysIn (S.outside system.now) (J.facts judge.old) (J.facts judge.new) self.old self.new line.now timeline.old timeline.new result }
        ensures later { IsLater (J.facts judge.old) (J.facts judge.new) }
        ensures still { J.reads_from judge.new system.now }
    {
        let position = match next_position(
            self.notation,
            line,
            self.standing.position(),
            self.ply,
        ) {
            Ok(position) => position,
            Err(stop) => return Err(stop),
        };
        match judge.move_on(self.alloc, system, timeline, &self.standing, position) {
            Ok(Ok(standing)) => {
                self.standing = standing;
                self.ply += 1;
                Ok(())
            }
            Ok(Err(refusal)) => Err(Stop::BadFile(refusal)),
            Err(_) => Err(Stop::OutOfMemory),
        }
    }

    /// Prints where the game stands, lets that go out, and returns its verdict.
    fn print_standing<S: System>(
        &self,
        system: &S,
        timeline: &mut S::Timeline,
    ) -> Result<Option<Verdict>, WriteFault>
        ensures made { AddsSome (S.outside system.now) timeline.old timeline.new (Performs (PrintsPly self.now) result) }
        ensures cause { OnErr result (OutputFails (S.outside system.now)) }
    {
        let verdict = self.standing.verdict(self.delay);
        match print_ply(
            system,
            timeline,
            self.ply,
            verdict,
            self.standing.position(),
        ) {
            Ok(()) => Ok(verdict),
            Err(fault) => Err(fault),
        }
    }

    /// Prints the ply after the move of a line, or why there is none.
    fn print_turn<S: System, J: PlyJudge<S>>(
        &mut self,
        judge: &mut J,
        system: &S,
        timeline: &mut S::Timeline,
        line: &[u8],
    ) -> Result<Step, WriteFault>
        requires from { J.reads_from judge.old system.now }
        requires more { self.old.ply < 2 ^ 64 - 1 }
        ensures made { PrintsIn (S.outside system.now) (J.facts judge.old) (J.facts judge.new) self.old self.new line.now timeline.old timeline.new result }
        ensures cause { OnErr result (OutputFails (S.outside system.now)) }
        ensures later { IsLater (J.facts judge.old) (J.facts judge.new) }
        ensures still { J.reads_from judge.new system.now }
    {
        match self.turn(judge, system, timeline, line) {
            Ok(()) => match self.print_standing(system, timeline) {
                Ok(verdict) => Ok(Step::Printed(verdict)),
                Err(fault) => Err(fault),
            },
            Err(stop) => match print_stop(system, timeline, stop) {
                Ok(_) => Ok(Step::Stopped),
                Err(fault) => Err(fault),
            },
        }
    }

    /// Reads the next line, and prints the ply after its move, or why there is none.
    fn take_turn<S: System, J: PlyJudge<S>>(
        &mut self,
        judge: &mut J,
        system: &S,
        timeline: &mut S::Timeline,
        lines: &mut S::Lines,
        line: &mut Vec<u8>,
    ) -> Result<Step, WriteFault>
        requires from { J.reads_from judge.old system.now }
        requires more { self.old.ply < 2 ^ 64 - 1 }
        ensures made { TurnsIn (S.outside system.now) (J.facts judge.old) (J.facts judge.new) self.old self.new lines.old lines.new timeline.old timeline.new result }
        ensures cause { OnErr result (OutputFails (S.outside system.now)) }
        ensures stops { (fault : ReadFault) → stops_by ((S.outside system.now).lines lines.new) fault → stops_by ((S.outside system.now).lines lines.old) fault }
        ensures later { IsLater (J.facts judge.old) (J.facts judge.new) }
        ensures still { J.reads_from judge.new system.now }
    {
        match system.next_line(timeline, lines, line) {
            Ok(is_line) => {
                if is_line {
                    self.print_turn(judge, system, timeline, line)
                } else {
                    Ok(Step::Ended)
                }
            }
            Err(fault) => match print_stop(system, timeline, stop_by(fault)) {
                Ok(_) => Ok(Step::Stopped),
                Err(fault) => Err(fault),
            },
        }
    }
}

/// Where a game stands at its start, or why it isn't begun.
fn begun<S: System, J: PlyJudge<S>>(
    alloc: Global,
    game: &FollowedGame,
    judge: &mut J,
    system: &S,
    timeline: &mut S::Timeline,
) -> Result<FollowState, Stop>
    requires { J.reads_from judge.old system.now }
    ensures made { AddsSome (S.outside system.now) timeline.old timeline.new (Begins (J.facts judge.old) (J.facts judge.new) game.now result) }
    ensures later { IsLater (J.facts judge.old) (J.facts judge.new) }
    ensures still { J.reads_from judge.new system.now }
{
    match judge.begin(alloc, system, timeline, &game.start) {
        Ok(Ok(standing)) => Ok(FollowState {
            alloc,
            notation: game.notation,
            delay: game.delay,
            ply: 0,
            standing,
        }),
        Ok(Err(refusal)) => Err(Stop::BadFile(refusal)),
        Err(_) => Err(Stop::OutOfMemory),
    }
}

/// Prints the plies of a game: its start, and then the one after each move of these lines, to a verdict or their end. Returns the status.
fn follow_lines<S: System, J: PlyJudge<S>>(
    alloc: Global,
    game: &FollowedGame,
    judge: &mut J,
    system: &S,
    timeline: &mut S::Timeline,
    lines: &mut S::Lines,
) -> Result<u8, WriteFault>
    requires { J.reads_from judge.old system.now }
    ensures made { FollowsIn (S.outside system.now) (J.facts judge.old) game.now lines.old timeline.old timeline.new result }
    ensures cause { OnErr result (OutputFails (S.outside system.now)) }
{
    let mut course = match begun(alloc, game, judge, system, timeline) {
        Ok(course) => course,
        Err(stop) => return print_stop(system, timeline, stop),
    };
    match course.print_standing(system, timeline) {
        Ok(None) => {}
        Ok(Some(_)) => return Ok(0),
        Err(fault) => return Err(fault),
    }
    let mut line = Vec::new(alloc);
    for number in 0..usize::MAX {
        match course.take_turn(judge, system, timeline, lines, &mut line) {
            Ok(Step::Printed(None)) => {}
            Ok(Step::Printed(Some(_))) => return Ok(0),
            Ok(Step::Ended) => return Ok(0),
            Ok(Step::Stopped) => return Ok(1),
            Err(fault) => return Err(fault),
        }
    }
    print_stop(system, timeline, Stop::Unread)
}

/// Follows a game: prints at once its start, and then, as each move of the input comes, the position after it. Returns the status: 0 where
/// the game came to a verdict or to the input's end, else 1.
///
/// A line is the number of the ply, its verdict or `open`, and the position's FEN text. Moves are in the notation, one a line. Nothing
/// is read after the line of a verdict. Each line has gone out before the next move is awaited. The status is 1 after one of
/// these last lines. `refused move 2`: the line at this place, counted from 0, is no move; in algebraic notation also one whose move
/// isn't legal, or is one of two. `illegal 2`: its move in coordinates isn't legal. `refused KQvK.rtbw BadMagic`: the position after the
/// move of the line, or the start, needs a table whose file is at fault.
/// `refused files`: the input can't be read, or has more than 2^64 - 1 moves. `refused memory`. The error comes only where the
/// output failed.
pub fn follow_game<S: System, J: PlyJudge<S>>(
    alloc: Global,
    game: &FollowedGame,
    judge: &mut J,
    system: &S,
    timeline: &mut S::Timeline,
) -> Result<u8, WriteFault>
    requires { J.reads_from judge.old system.now }
    ensures made { FollowsInputMoves (S.outside system.now) (J.facts judge.old) game.now timeline.old timeline.new result }
    ensures cause { OnErr result (OutputFails (S.outside system.now)) }
{
    match system.input_lines(timeline, alloc) {
        Ok(mut lines) => follow_lines(alloc, game, judge, system, timeline, &mut lines),
        Err(_) => print_stop(system, timeline, Stop::OutOfMemory),
    }
}
