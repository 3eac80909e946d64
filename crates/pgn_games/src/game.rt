//! Games that are read.

use crate::fault::GameFault;
use crate::tags::Tags;
use board_core::{Move, Position};

/// The result of a game (PGN standard, section 8.2.6).
#[derive(Clone, Copy, PartialEq, Eq, Debug)]
pub enum GameResult {
    /// `1-0`.
    WhiteWins,
    /// `0-1`.
    BlackWins,
    /// `1/2-1/2`.
    Draw,
    /// `*`.
    Unknown,
    /// The movetext ends without a result.
    Missing,
}

/// A game that is read.
#[derive(Drop)]
pub struct Game {
    /// The number of the line at which it begins, from 1.
    pub line: u64,
    /// Its tags.
    pub tags: Tags,
    /// Where it begins: the position of its FEN tag, or the usual one.
    pub start: Position,
    /// Its moves, at most 4,096, each legal in turn.
    pub moves: Vec<Move>,
    /// Its result.
    pub result: GameResult,
}

/// A game of a file, or a game at fault.
#[derive(Drop)]
pub enum Reading {
    /// A game.
    Game(Game),
    /// A game that isn't read.
    Fault(GameFault),
}
