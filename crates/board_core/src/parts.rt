//! The parts of a position.

ghost use Rattle.std.specs.Prelude.{◌≡◌, ◌↔◌, IsTrue};
ghost use Rattle.board_core.specs.Castling.{has_right, has_any_right};

use crate::men::Men;
use crate::piece::{Side, Wing};
use crate::square::Square;

/// Which castlings have not been lost (FIDE article 3.8.2.1).
#[derive(Clone, Copy, PartialEq, Eq, Debug)]
pub struct Rights {
    /// White, with the rook of h1.
    pub white_king: bool,
    /// White, with the rook of a1.
    pub white_queen: bool,
    /// Black, with the rook of h8.
    pub black_king: bool,
    /// Black, with the rook of a8.
    pub black_queen: bool,
}

/// The parts of a position. They need not form one: `Position::new` tests that.
#[derive(Clone, Copy, PartialEq, Eq, Debug)]
pub struct Parts {
    /// What stands on each square.
    pub men: Men,
    /// The side to move.
    pub side: Side,
    /// Which castlings have not been lost.
    pub rights: Rights,
    /// The square that a pawn passed by a double step in the move before.
    pub en_passant: Option<Square>,
    /// Plies since the last capture or pawn move, 0 to 9999.
    pub halfmove: u16,
    /// The number of the move, one more after each move of black, 0 to 9999.
    pub fullmove: u16,
}

impl Rights {
    /// Whether some castling has not been lost.
    pub fn any(self) -> bool
        ensures computed { result ≡ has_any_right self }
        ensures rights { IsTrue result ↔ ((side : Side) × (wing : Wing) × IsTrue (has_right self side wing)) }
    {
        self.white_king || self.white_queen || self.black_king || self.black_queen
    }

    /// Whether this side has not lost this castling.
    pub fn has(self, side: Side, wing: Wing) -> bool
        ensures { result ≡ has_right self side wing }
    {
        match (side, wing) {
            (Side::White, Wing::KingSide) => self.white_king,
            (Side::White, Wing::QueenSide) => self.white_queen,
            (Side::Black, Wing::KingSide) => self.black_king,
            (Side::Black, Wing::QueenSide) => self.black_queen,
        }
    }
}
