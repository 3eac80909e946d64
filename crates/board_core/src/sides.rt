//! Where the men of each side stand.

ghost use Rattle.std.specs.Prelude.{◌≡◌, ◌≢◌, ◌<◌, ℕ, List, Option, cond, length, slice_set};
ghost use Rattle.std.specs.Int.{bit_at};
ghost use Rattle.board_core.specs.declared.piece.Piece.{Piece};
ghost use Rattle.board_core.specs.Moves.{carried};
ghost use Rattle.board_core.specs.Position.{is_of};
ghost use Rattle.board_core.specs.Sides.{IsOccupied, side_squares, sides_of};

use crate::bitboard::Bitboard;
use crate::piece::{Piece, Side};
use crate::square::Square;

/// Whether a man of this side stands there.
pub fn is_of(side: Side, man: Option<Piece>) -> bool
    ensures { result ≡ is_of side man }
{
    match man {
        Some(man) => man.is_of(side),
        None => false,
    }
}

/// The set with the square where it belongs to it, and otherwise without.
fn marked(set: Bitboard, square: Square, belongs: bool) -> Bitboard
    ensures here { bit_at result square ≡ cond belongs 1 0 }
    ensures others { (s : ℕ) → s < 64 → s ≢ square → bit_at result s ≡ bit_at set s }
    ensures only { (s : ℕ) → s ≢ square → bit_at result s ≡ 1 → bit_at set s ≡ 1 }
{
    if belongs {
        set.with(square)
    } else {
        set.without(square)
    }
}

/// The squares on which the men of each side stand.
#[derive(Clone, Copy)]
pub struct Sides {
    pub white: Bitboard,
    pub black: Bitboard,
}

impl Sides {
    /// The squares of both sides.
    pub fn all(&self) -> Bitboard
        ensures { (men : List (Option Piece)) → self.now ≡ sides_of men → IsOccupied men result }
    {
        self.white | self.black
    }

    /// The squares once this man stands on the square, or nothing does.
    pub fn put(&self, square: Square, man: Option<Piece>) -> Sides
        ensures { (men : List (Option Piece)) → length men ≡ 64 → self.now ≡ sides_of men
            → result ≡ sides_of (slice_set men square man) }
    {
        Sides {
            white: marked(self.white, square, is_of(Side::White, man)),
            black: marked(self.black, square, is_of(Side::Black, man)),
        }
    }

    /// The squares once a man has left one square and this one stands on another.
    pub fn carry(&self, from: Square, to: Square, man: Option<Piece>) -> Sides
        ensures { (men : List (Option Piece)) → length men ≡ 64 → self.now ≡ sides_of men
            → result ≡ sides_of (carried men from to man) }
    {
        self.put(from, None).put(to, man)
    }

    /// The squares of one side.
    pub fn of_side(&self, side: Side) -> Bitboard
        ensures { result ≡ side_squares self.now side }
    {
        match side {
            Side::White => self.white,
            Side::Black => self.black,
        }
    }
}
