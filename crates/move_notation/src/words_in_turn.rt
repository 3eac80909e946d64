//! Words that are read in turn, each as a move of the position after those before it.

ghost use Rattle.std.specs.Prelude.{◌≡◌, ◌≢◌, [], IfErr, IfOk, IfSome, IfNone, OnErr, Some};
ghost use Rattle.board_core.specs.declared.moves.Move.{Move as Moves};
ghost use Rattle.board_core.specs.ComputedMoves.{position_after};
ghost use Rattle.move_msg.specs.GameTexts.{words_in};
ghost use Rattle.san_text.specs.San.{ReadsSan};
ghost use Rattle.move_notation.specs.Notations.{AreMovesIn, AreSanMoves, IsBadWordIn, IsFirstUnread};

use crate::notation::Notation;
use board_core::{Move, Position};
use move_msg::{next_word, read_moves};
use san_text::read_san;
use std::alloc::{AllocError, Global};

/// The move that a word in algebraic notation names in a position, and the position after it.
fn played(position: &Position, word: &[u8]) -> Option<(Move, Position)>
    ensures some { IfSome result (λ x. ReadsSan position.now word.now x.0 × (position_after position.now x.0 ≡ Some x.1)) }
    ensures none { IfNone result ((m : Moves) → ReadsSan position.now word.now m → ⊥) }
{
    let read = read_san(position, word);
    let Ok(m) = &read else {
        return None;
    };
    match position.play(*m) {
        Some(next) => Some((*m, next)),
        None => unreachable!(),
    }
}

/// The moves that the words of a text name in turn in algebraic notation, or the place of the first word that names none.
fn read_san_moves(
    alloc: Global,
    start: &Position,
    text: &[u8],
) -> Result<Result<Vec<Move>, usize>, AllocError>
    ensures ok { IfOk result (λ read. IfOk read (λ moves. AreSanMoves start.now (words_in text.now) moves.items)) }
    ensures err { IfOk result (λ read. IfErr read (IsFirstUnread start.now (words_in text.now))) }
    ensures memory { OnErr result (words_in text.now ≢ []) }
{
    let mut moves = Vec::new(alloc);
    let mut position = *start;
    let mut rest = text;
    while let Some((word, tail)) = next_word(rest) {
        let Some((m, next)) = played(&position, word) else {
            return Ok(Err(moves.len()));
        };
        moves.push(m)?;
        position = next;
        rest = tail;
    }
    Ok(Ok(moves))
}

/// The moves that the words of a text name in turn, or the place of the first word that names none, counted from 0.
///
/// Any number of spaces, line feeds and carriage returns separate words. In coordinates a word is a move whether or not it is legal; in
/// algebraic notation it is one legal move of the position after the moves before it. The outer error comes only where memory for a move is
/// refused.
pub fn read_moves_in(
    alloc: Global,
    notation: Notation,
    start: &Position,
    text: &[u8],
) -> Result<Result<Vec<Move>, usize>, AllocError>
    ensures ok { IfOk result (λ read. IfOk read (λ moves. AreMovesIn notation start.now (words_in text.now) moves.items)) }
    ensures err { IfOk result (λ read. IfErr read (IsBadWordIn notation start.now (words_in text.now))) }
    ensures memory { OnErr result (words_in text.now ≢ []) }
{
    match notation {
        Notation::Coordinates => read_moves(alloc, text),
        Notation::San => read_san_moves(alloc, start, text),
    }
}
