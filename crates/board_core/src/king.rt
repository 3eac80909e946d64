//! Where a side's king stands, and whether it is attacked.

ghost use Rattle.std.specs.Prelude.{◌≡◌, ◌↔◌, IsTrue, count_by};
ghost use Rattle.board_core.specs.Attack.{IsInCheck};
ghost use Rattle.board_core.specs.Computed.{is_in_check};
ghost use Rattle.board_core.specs.Moves.{Stands};
ghost use Rattle.board_core.specs.Position.{is_of, is_king_of};
ghost use Rattle.board_core.specs.Inside.Search.{IsOnlyKing};
ghost use Rattle.board_core.specs.Sides.{sides_of, squares_where};
ghost use Rattle.board_core.specs.declared.piece.Kind.{Kind};

use crate::attack;
use crate::bitboard::Bitboard;
use crate::men::Men;
use crate::piece::{Kind, Side};
use crate::rules::stands;
use crate::sides::Sides;
use crate::square::Square;

/// The square of the one king of this side, whose men stand on these squares.
pub fn king_of(men: &Men, side: Side, own: Bitboard) -> Square
    requires one { count_by (is_king_of side) men.now ≡ 1 }
    requires own { own ≡ squares_where (is_of side) men.now }
    ensures stands { Stands men.now result side Kind.King }
    ensures only { IsOnlyKing men.now side result }
{
    prove!(men.squares() == 64);
    let mut rest = own;
    let mut next = 0u8;
    let mut square = rest.lowest();
    while !stands(men, square, side, Kind::King) {
        rest = rest.without(square);
        next = square.number() + 1;
        square = rest.lowest();
    }
    square
}

/// Whether the one king of this side is attacked.
pub fn is_in_check(men: &Men, sides: &Sides, side: Side) -> bool
    requires one { count_by (is_king_of side) men.now ≡ 1 }
    requires sides { sides.now ≡ sides_of men.now }
    ensures relation { IsTrue result ↔ IsInCheck men.now side }
    ensures computed { result ≡ is_in_check men.now side }
{
    let king = king_of(men, side, sides.of_side(side));
    let other = side.other();
    attack::is_attacked_from(men, other, sides.of_side(other), king)
}
