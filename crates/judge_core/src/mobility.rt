//! Whether there is a legal move.

ghost use Rattle.std.specs.Prelude.{◌≡◌};
ghost use Rattle.board_core.specs.ComputedMoves.{legal_moves};
ghost use Rattle.board_core.specs.Ends.{has_no_move};

use board_core::Position;

/// Whether the side to move has no legal move.
pub(crate) fn has_no_move(position: &Position) -> bool
    ensures { result ≡ has_no_move (legal_moves position.now) }
{
    !position.has_legal_move()
}
