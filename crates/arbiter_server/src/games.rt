//! What is told of a game.

use arbiter_core::Name;
use board_core::{Delay, Position};

/// What a folder tells of a game.
#[derive(Drop)]
pub struct GameConfig {
    /// Its name, which need not be one of a game.
    pub name: Name,
    /// The position before its first move.
    pub start: Position,
    /// For how many further plies a verdict by tables must hold.
    pub delay: Delay,
}
