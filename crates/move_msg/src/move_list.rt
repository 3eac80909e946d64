//! The moves of a game.

ghost use Rattle.std.specs.Prelude.{◌≡◌, ◌+◌, ◌≤◌, ◌++◌, length, take, cond, is_ok};
ghost use Rattle.move_msg.specs.Numbers.{most_moves};

use crate::count::Count;
use board_core::Move;
use std::alloc::AllocError;
use std::marker::Model;

/// The moves of a game from its start, at most 4096; contracts see the list.
#[derive(Debug, Drop)]
pub struct MoveList {
    moves: Vec<Move>,
}

impl Model for MoveList {
    ghost use Rattle.std.specs.Prelude.{List, ◌≤◌, length};
    ghost use Rattle.board_core.specs.declared.moves.Move.{Move};
    ghost use Rattle.move_msg.specs.Numbers.{most_moves};

    ghost Value = { List Move };

    ghost view = { λ l. l.moves.items };

    ghost invariant = { λ l. length l.moves.items ≤ most_moves };
}

impl MoveList {
    /// These moves, of which there are at most 4096.
    pub fn from_vec(moves: Vec<Move>) -> MoveList
        requires { length moves.items ≤ most_moves }
        ensures { result ≡ moves.items }
    {
        MoveList { moves }
    }

    /// The moves as a vector, which can grow.
    pub fn into_vec(self) -> Vec<Move>
        ensures moves { result.items ≡ self }
        ensures few { length self ≤ most_moves }
    {
        let MoveList { moves } = self;
        moves
    }

    /// How many moves there are.
    pub fn count(&self) -> Count
        ensures { result ≡ length self.now }
    {
        Count::new(self.moves.len() as u32).unwrap()
    }

    /// The moves in order.
    pub fn as_slice(&self) -> &[Move]
        ensures moves { result.now ≡ self.now }
        ensures few { length self.now ≤ most_moves }
    {
        self.moves.as_slice()
    }

    /// Appends moves. Where there is too little room it grows by 64 moves more than it has to, and no further. The
    /// error comes only where memory is refused, and leaves the list as it was.
    pub(crate) fn append(&mut self, more: &[Move]) -> Result<(), AllocError>
        requires { length self.old + length more.now ≤ most_moves }
        ensures { self.new ≡ cond (is_ok result) (self.old ++ more.now) self.old }
    {
        if self.moves.capacity() - self.moves.len() < more.len() {
            self.moves.reserve_exact(more.len() + 64)?;
        }
        self.moves.extend_from_slice(more)
    }

    /// Keeps the first moves alone, so many.
    pub(crate) fn truncate(&mut self, count: usize)
        ensures { self.new ≡ take count self.old }
    {
        self.moves.truncate(count);
    }
}
