//! Positions by their FEN texts, and squares by their numbers, without contracts.

use board_core::{Position, Square};
use fen_text::read;
use std::process::Abort;

/// The position of a FEN text that is good.
pub(crate) fn position_of(rt: &impl Abort, text: &str) -> Position {
    read(text.as_bytes()).expect(rt, text)
}

/// The square of a number below 64.
pub(crate) fn square(rt: &impl Abort, number: u8) -> Square {
    Square::new(number).expect(rt, "a square")
}
