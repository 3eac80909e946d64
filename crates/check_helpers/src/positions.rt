//! The usual start by its FEN text, and moves by their coordinates.

use board_core::Move;
use fen_text::read_move;
use std::alloc::{AllocError, Global};

/// The FEN text of the usual start.
pub const START: &str = "rnbqkbnr/pppppppp/8/8/8/8/PPPPPPPP/RNBQKBNR w KQkq - 0 1";

/// The moves of a text such as "h1h8 b1b8", none of an empty one; no list where a word is no move.
///
/// An error is refused memory.
pub fn moves_of(alloc: Global, text: &str) -> Result<Option<Vec<Move>>, AllocError> {
    let mut moves = Vec::new(alloc);
    if !text.is_empty() {
        for word in text.split(' ') {
            let Some(m) = read_move(word.as_bytes()) else {
                return Ok(None);
            };
            moves.push(m)?;
        }
    }
    Ok(Some(moves))
}
