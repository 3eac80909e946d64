//! What open handles hold.

use judge_core::Set;
use probe_api::Game;

/// The set of tables behind a handle. It borrows the bytes of the files, which the caller keeps.
#[derive(Drop)]
pub struct Held {
    /// The tables.
    pub set: Set<'static>,
}

/// The game behind a game's handle.
#[derive(Drop)]
pub struct HeldGame {
    /// The game.
    pub game: Game,
}
