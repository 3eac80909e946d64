//! A game that is open, among many.

use arbiter_core::{ArbiterState, Outputs};
use arbiter_server::Line;
use game_folder::KeptGame;

/// A game that is open: its arbiter but the tables, its record, and where that is kept.
#[derive(Drop)]
pub struct Seat<'a, F: Drop> {
    pub(crate) state: ArbiterState<'a>,
    pub(crate) kept: KeptGame<F>,
}

/// What a datagram is answered: the messages that are to be sent, and the line that is told.
#[derive(Drop)]
pub struct Reply {
    /// The messages.
    pub outputs: Outputs,
    /// The line.
    pub line: Line,
}

/// What a game that is open answers, and what becomes of it.
#[derive(Drop)]
pub(crate) enum Answer {
    /// It stays open.
    Stays(Reply),
    /// Its record wasn't kept: it is to be closed.
    Closes(Reply),
}
