//! The squares by which the first fault is found.

ghost use Rattle.std.specs.Prelude.{◌≡◌, ◌↔◌, IsTrue, List, Option};
ghost use Rattle.board_core.specs.Position.{is_same_side, is_king, HasOneKingEach, HasNoPawnOnEdge};
ghost use Rattle.board_core.specs.Inside.Census.{IsAdded, census_of, is_pawn_kind};
ghost use Rattle.board_core.specs.declared.piece.Piece.{Piece};
ghost use Rattle.board_core.specs.declared.piece.Side.{Side};

use crate::bitboard::Bitboard;
use crate::men::Men;
use crate::piece::{Kind, Piece, Side};
use crate::sides::Sides;
use crate::square::Square;

/// The squares of ranks 1 and 8.
const EDGE: u64 = 0xff00_0000_0000_00ff;

/// The squares of the men of each side, of the kings and of the pawns.
#[derive(Clone, Copy)]
pub struct Census {
    pub sides: Sides,
    pub kings: Bitboard,
    pub pawns: Bitboard,
}

/// The set with the square where it belongs to it.
fn added(set: Bitboard, square: Square, belongs: bool) -> Bitboard
    ensures { IsAdded set square belongs result }
{
    if belongs { set.with(square) } else { set }
}

impl Census {
    /// The squares of these men.
    pub fn of(men: &Men) -> Census
        ensures { result ≡ census_of men.now }
    {
        let mut census = Census {
            sides: Sides {
                white: Bitboard::empty(),
                black: Bitboard::empty(),
            },
            kings: Bitboard::empty(),
            pawns: Bitboard::empty(),
        };
        for n in 0..men.squares() {
            if let Some(man) = men.at(Square::at(n)) {
                census = census.with(Square::at(n), man);
            }
        }
        census
    }

    /// The squares with that of one more man.
    fn with(&self, square: Square, man: Piece) -> Census
        ensures white { IsAdded self.now.sides.white square (is_same_side Side.White man.side) result.sides.white }
        ensures black { IsAdded self.now.sides.black square (is_same_side Side.Black man.side) result.sides.black }
        ensures kings { IsAdded self.now.kings square (is_king man.kind) result.kings }
        ensures pawns { IsAdded self.now.pawns square (is_pawn_kind man.kind) result.pawns }
    {
        let sides = Sides {
            white: added(self.sides.white, square, man.is_of(Side::White)),
            black: added(self.sides.black, square, man.is_of(Side::Black)),
        };
        Census {
            sides,
            kings: added(self.kings, square, is_king(man.kind)),
            pawns: added(self.pawns, square, is_pawn(man.kind)),
        }
    }

    /// Whether each side has one king, where these are the squares of the men.
    pub fn has_one_king_each(&self) -> bool
        ensures { (men : List (Option Piece)) → self.now ≡ census_of men → (IsTrue result ↔ HasOneKingEach men) }
    {
        (self.kings & self.sides.white).len() == 1 && (self.kings & self.sides.black).len() == 1
    }

    /// Whether no pawn stands on rank 1 or 8, where these are the squares of the men.
    pub fn has_no_pawn_on_edge(&self) -> bool
        ensures { (men : List (Option Piece)) → self.now ≡ census_of men → (IsTrue result ↔ HasNoPawnOnEdge men) }
    {
        (self.pawns & Bitboard::from_bits(EDGE)).is_empty()
    }
}

fn is_king(kind: Kind) -> bool
    ensures { result ≡ is_king kind }
{
    match kind {
        Kind::King => true,
        _ => false,
    }
}

fn is_pawn(kind: Kind) -> bool
    ensures { result ≡ is_pawn_kind kind }
{
    match kind {
        Kind::Pawn => true,
        _ => false,
    }
}
