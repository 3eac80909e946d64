//! What ties the computed words of specs/ to the relations of the rules, for proofs above: each
//! function carries one law and does nothing. The last ones say what `==` and `<` of squares, sets
//! of squares, men, rights and moves mean.

ghost use Rattle.std.specs.Prelude.{◌≡◌, ◌<◌, ◌↔◌, IsTrue};
ghost use Rattle.board_core.specs.Moves.{place_of};
ghost use Rattle.board_core.specs.Laws.{CheckIsComputed, PositionAfterIsComputed, PositionAfterIsAPosition, LegalIsComputed, LegalMovesAreListed, LegalCapturesAreListed, CaptureTakesOneMan, OtherMoveKeepsTheMen, PositionHasTwoToThirtyTwoMen};

use crate::bitboard::Bitboard;
use crate::moves::Move;
use crate::parts::Rights;
use crate::piece::Piece;
use crate::square::Square;

/// The computed test for check says that a king of the side is attacked.
pub fn check_is_computed()
    ensures { CheckIsComputed }
{}

/// The computed position after a move is there exactly where the move is legal, and is the one
/// of the rules.
pub fn position_after_is_computed()
    ensures { PositionAfterIsComputed }
{}

/// What stands after a legal move of a position is a position.
pub fn position_after_is_a_position()
    ensures { PositionAfterIsAPosition }
{}

/// The computed test for a legal move says that some position is the one after it.
pub fn legal_is_computed()
    ensures { LegalIsComputed }
{}

/// The computed list of the legal moves is the one list that has each once and in order.
pub fn legal_moves_are_listed()
    ensures { LegalMovesAreListed }
{}

/// The computed list of the legal captures is the one list that has each once and in order.
pub fn legal_captures_are_listed()
    ensures { LegalCapturesAreListed }
{}

/// A legal capture leaves one man fewer.
pub fn capture_takes_one_man()
    ensures { CaptureTakesOneMan }
{}

/// A legal move that is no capture leaves as many men.
pub fn other_move_keeps_the_men()
    ensures { OtherMoveKeepsTheMen }
{}

/// A position has two men at least and thirty-two at most.
pub fn position_has_two_to_thirty_two_men()
    ensures { PositionHasTwoToThirtyTwoMen }
{}

/// Squares are equal where they have one number.
pub fn are_squares_equal(a: Square, b: Square) -> bool
    ensures { IsTrue result ↔ (a ≡ b) }
{
    a == b
}

/// Sets of squares are equal where they have the same squares.
pub fn are_bitboards_equal(a: Bitboard, b: Bitboard) -> bool
    ensures { IsTrue result ↔ (a ≡ b) }
{
    a == b
}

/// Men are equal where they are of one side and of one kind.
pub fn are_pieces_equal(a: Piece, b: Piece) -> bool
    ensures { IsTrue result ↔ (a ≡ b) }
{
    a == b
}

/// Rights to castle are equal where all four are.
pub fn are_rights_equal(a: Rights, b: Rights) -> bool
    ensures { IsTrue result ↔ (a ≡ b) }
{
    a == b
}

/// Moves are equal where they have the same squares and the same promotion.
pub fn are_moves_equal(a: Move, b: Move) -> bool
    ensures { IsTrue result ↔ (a ≡ b) }
{
    a == b
}

/// Squares are in the order of their numbers.
pub fn is_square_before(a: Square, b: Square) -> bool
    ensures { IsTrue result ↔ (a < b) }
{
    a < b
}

/// Moves are in the order in which they are listed: of from, to and promotion.
pub fn is_move_before(a: Move, b: Move) -> bool
    ensures { IsTrue result ↔ (place_of a < place_of b) }
{
    a < b
}
