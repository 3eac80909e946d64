//! The squares of castling.

ghost use Rattle.std.specs.Prelude.{◌≡◌};
ghost use Rattle.board_core.specs.Castling.{king_home, rook_home, king_end, rook_end};

use crate::piece::{Side, Wing};
use crate::square::Square;

/// Where this side's king begins: e1 or e8.
pub fn king_home(side: Side) -> Square
    ensures { result ≡ king_home side }
{
    match side {
        Side::White => Square::at(4),
        Side::Black => Square::at(60),
    }
}

/// Where the rook of this side and wing begins.
pub fn rook_home(side: Side, wing: Wing) -> Square
    ensures { result ≡ rook_home side wing }
{
    match (side, wing) {
        (Side::White, Wing::KingSide) => Square::at(7),
        (Side::White, Wing::QueenSide) => Square::at(0),
        (Side::Black, Wing::KingSide) => Square::at(63),
        (Side::Black, Wing::QueenSide) => Square::at(56),
    }
}

/// Where the king goes to castle: file g or c.
pub fn king_end(side: Side, wing: Wing) -> Square
    ensures { result ≡ king_end side wing }
{
    match (side, wing) {
        (Side::White, Wing::KingSide) => Square::at(6),
        (Side::White, Wing::QueenSide) => Square::at(2),
        (Side::Black, Wing::KingSide) => Square::at(62),
        (Side::Black, Wing::QueenSide) => Square::at(58),
    }
}

/// Where the rook then goes: file f or d.
pub fn rook_end(side: Side, wing: Wing) -> Square
    ensures { result ≡ rook_end side wing }
{
    match (side, wing) {
        (Side::White, Wing::KingSide) => Square::at(5),
        (Side::White, Wing::QueenSide) => Square::at(3),
        (Side::Black, Wing::KingSide) => Square::at(61),
        (Side::Black, Wing::QueenSide) => Square::at(59),
    }
}
