//! The moves that a text lists.

ghost use Rattle.std.specs.Prelude.{◌≡◌, ◌<◌, ◌+◌, ◌∷◌, [], length, true, position, IfOk, IfErr, IfSome, IfNone, OnErr};
ghost use Rattle.std.specs.List.{slice_split};
ghost use Rattle.board_core.specs.declared.moves.Move.{Move as Moves};
ghost use Rattle.fen_text.specs.Coordinates.{SpellsMove};
ghost use Rattle.move_msg.specs.GameTexts.{HasMove, IsBadWordAt, TellsMoves, has_bytes, is_gap, words_in};
ghost use Rattle.move_msg.specs.Inside.GameSteps.{AddsWord};

use board_core::Move;
use fen_text::read_move;
use std::alloc::{AllocError, Global};

/// The first place of a space or a line end.
fn gap_in(text: &[u8]) -> Option<usize>
    ensures { result ≡ position is_gap text.now }
{
    text.iter()
        .position(|b| *b == b' ' || *b == b'\n' || *b == b'\r')
}

/// What stands before the first gap, and the text after it; none where there is no gap.
fn cut_first(text: &[u8]) -> Option<(&[u8], &[u8])>
    ensures some { IfSome result (λ x. slice_split is_gap text.now ≡ x.0.now ∷ slice_split is_gap x.1.now) }
    ensures shorter { IfSome result (λ x. length x.0.now + length x.1.now < length text.now) }
    ensures none { IfNone result (slice_split is_gap text.now ≡ text.now ∷ []) }
{
    match gap_in(text) {
        None => None,
        Some(i) => Some((&text[..i], &text[i + 1..])),
    }
}

/// The first word of a text, and the text behind it; none where it has no word. Any number of spaces, line feeds and carriage returns
/// separate words. It takes no memory.
pub fn next_word(text: &[u8]) -> Option<(&[u8], &[u8])>
    ensures some { IfSome result (λ x. words_in text.now ≡ x.0.now ∷ words_in x.1.now) }
    ensures shorter { IfSome result (λ x. length x.1.now < length text.now) }
    ensures none { IfNone result (words_in text.now ≡ []) }
{
    let Some((word, rest)) = cut_first(text) else {
        return if text.is_empty() {
            None
        } else {
            Some((text, &[]))
        };
    };
    if word.is_empty() {
        next_word(rest)
    } else {
        Some((word, rest))
    }
}

/// Adds the move of a word, and returns whether the word is one. An empty word between two gaps adds none.
fn add_word(moves: &mut Vec<Move>, word: &[u8]) -> Result<bool, AllocError>
    ensures added { IfOk result (λ is. AddsWord word.now moves.old.items moves.new.items is) }
    ensures memory { OnErr result ((has_bytes word.now ≡ true) × ((m : Moves) × SpellsMove word.now m)) }
{
    if word.is_empty() {
        return Ok(true);
    }
    match read_move(word) {
        Some(m) => {
            moves.push(m)?;
            Ok(true)
        }
        None => Ok(false),
    }
}

/// The moves that a text lists, or the place of the first word that is no move, counted from 0.
///
/// Words are in coordinates, as `e2e4` or `e7e8q`. Any number of spaces, line feeds and carriage returns separate them.
/// A text without words lists no move. The outer error comes only where memory for a move is refused.
pub fn read_moves(alloc: Global, text: &[u8]) -> Result<Result<Vec<Move>, usize>, AllocError>
    ensures ok { IfOk result (λ read. IfOk read (λ moves. TellsMoves text.now moves.items)) }
    ensures err { IfOk result (λ read. IfErr read (λ place. IsBadWordAt (words_in text.now) place)) }
    ensures memory { OnErr result (HasMove text.now) }
{
    let mut moves = Vec::new(alloc);
    let mut rest = text;
    while let Some((word, tail)) = cut_first(rest) {
        let is_move = add_word(&mut moves, word)?;
        if !is_move {
            return Ok(Err(moves.len()));
        }
        rest = tail;
    }
    let is_move = add_word(&mut moves, rest)?;
    if !is_move {
        return Ok(Err(moves.len()));
    }
    Ok(Ok(moves))
}
