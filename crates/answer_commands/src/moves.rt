//! `moves`: the legal moves of a position.

ghost use Rattle.std.specs.Prelude.{◌≡◌, ◌++◌, ◌∷◌, [], IfOk, OnErr, OnOk, map};
ghost use Rattle.answer_commands.specs.Inside.Answering.{IsMovesAnswer};
ghost use Rattle.answer_commands.specs.Moves.{PrintsMoves, move_line, move_lines};
ghost use Rattle.answer_parts.specs.Printing.{OutputFails, Performs};
ghost use Rattle.answer_parts.specs.Lines.{words_of};
ghost use Rattle.board_core.specs.Moves.{IsLegal};
ghost use Rattle.timeline.specs.Outsides.{AddsSome};

use crate::answers::Answer;
use crate::printing::print_answered;
use answer_parts::{Line, Refusal};
use board_core::{Move, Position};
use command_line::Moves;
use fen_text::read;
use san_text::write_san;
use std::alloc::{AllocError, Global};
use system_io::WriteFault;
use timeline::System;

/// The line of a legal move.
fn move_line(position: &Position, m: &Move, san: bool) -> Line
    requires { IsLegal position.now m.now }
    ensures { words_of result ≡ move_line san position.now m.now }
{
    if !san {
        return Line::Move(*m);
    }
    match write_san(position, *m) {
        Some(text) => Line::SanMove(*m, text),
        None => unreachable!(),
    }
}

/// Adds an item to a list. It is over any type, since the borrow checker doesn't cover a push of a `Line` (docs/PROVING.md).
fn add<T: Copy>(list: &mut Vec<T>, item: T) -> Result<(), AllocError>
    ensures { OnOk result (list.new.items ≡ list.old.items ++ item ∷ []) }
{
    list.push(item)?;
    Ok(())
}

/// The lines of the legal moves of a position, in their order.
fn move_lines(alloc: Global, position: &Position, san: bool) -> Result<Vec<Line>, AllocError>
    ensures { IfOk result (λ lines. map words_of lines.items ≡ move_lines san position.now) }
{
    let moves = match position.legal(alloc) {
        Ok(moves) => moves,
        Err(refused) => return Err(refused),
    };
    let mut lines = Vec::new(alloc);
    for m in &moves {
        let line = move_line(position, m, san);
        match add(&mut lines, line) {
            Ok(()) => {}
            Err(refused) => return Err(refused),
        }
    }
    Ok(lines)
}

/// The legal moves of the position of a text: a text that is none is refused first, and takes no memory.
fn answer_moves(alloc: Global, task: &Moves) -> Result<Answer, AllocError>
    ensures { IsMovesAnswer task.now result }
{
    match read(task.fen.as_bytes()) {
        Err(fault) => Ok(Answer::Refused(Refusal::Fen(fault))),
        Ok(position) => match move_lines(alloc, &position, task.san) {
            Ok(lines) => Ok(Answer::Lines(lines)),
            Err(refused) => Err(refused),
        },
    }
}

/// Writes the legal moves, one a line, and returns the status.
pub(crate) fn print_moves<S: System>(
    alloc: Global,
    task: &Moves,
    system: &S,
    timeline: &mut S::Timeline,
) -> Result<u8, WriteFault>
    ensures made { AddsSome (S.outside system.now) timeline.old timeline.new (Performs (PrintsMoves task.now) result) }
    ensures cause { OnErr result (OutputFails (S.outside system.now)) }
{
    print_answered(system, timeline, answer_moves(alloc, task))
}
