//! Moves.

ghost use Rattle.std.specs.Prelude.{◌≡◌, ◌<◌};
ghost use Rattle.board_core.specs.ComputedMoves.{promotion_at};
ghost use Rattle.board_core.specs.Moves.{place_of, promotion_place};

use crate::piece::{Promotion, Wing};
use crate::square::Square;

/// A move: the square that a man leaves, the one where it goes, and what a pawn becomes on its last
/// rank. Castling is the king's move of two squares.
#[derive(Clone, Copy, PartialEq, Eq, PartialOrd, Ord, Hash, Debug)]
pub struct Move {
    /// The square that the man leaves.
    pub from: Square,
    /// The square where it goes.
    pub to: Square,
    /// What a pawn becomes on its last rank; none for every other move.
    pub promotion: Option<Promotion>,
}

/// The cases of the rules of moves (FIDE articles 3.2 to 3.8).
#[derive(Clone, Copy)]
pub enum MoveCase {
    /// A step or a ray of a man other than a pawn.
    Plain,
    /// A pawn goes one square ahead.
    Advance,
    /// A pawn goes two squares ahead from where it began.
    DoubleStep,
    /// A pawn takes a man diagonally before it.
    PawnCapture,
    /// A pawn takes one that has just passed it by a double step.
    EnPassant,
    /// King and rook castle.
    Castle(Wing),
}

fn promotion_place(promotion: Option<Promotion>) -> u32
    ensures is { result ≡ promotion_place promotion }
    ensures below { result < 5 }
{
    match promotion {
        None => 0,
        Some(Promotion::Queen) => 1,
        Some(Promotion::Rook) => 2,
        Some(Promotion::Bishop) => 3,
        Some(Promotion::Knight) => 4,
    }
}

/// What a pawn becomes by the move at this place of those between two squares: nothing at 0, then a queen, a rook, a bishop
/// and a knight.
pub fn promotion_at(place: u8) -> Option<Promotion>
    ensures { result ≡ promotion_at place }
{
    match place {
        0 => None,
        1 => Some(Promotion::Queen),
        2 => Some(Promotion::Rook),
        3 => Some(Promotion::Bishop),
        _ => Some(Promotion::Knight),
    }
}

impl Move {
    /// The place of the move in the order of from, to and promotion.
    pub(crate) fn place(&self) -> u32
        ensures { result ≡ place_of self.now }
    {
        320 * self.from.number() as u32
            + 5 * self.to.number() as u32
            + promotion_place(self.promotion)
    }
}
