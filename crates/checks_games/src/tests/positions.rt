//! Positions by their FEN texts, and moves by their coordinates, without contracts.

use board_core::{Move, Position};
use fen_text::{read, read_move};
use std::process::Abort;

/// The position of a FEN text that is good.
pub(crate) fn position_of(rt: &impl Abort, text: &str) -> Position {
    read(text.as_bytes()).expect(rt, text)
}

/// The move of a text that is good.
pub(crate) fn move_of(rt: &impl Abort, text: &str) -> Move {
    read_move(text.as_bytes()).expect(rt, text)
}
