//! Piece codes of table files.

ghost use Rattle.std.specs.Prelude.{◌≡◌, ◌<◌, ◌↔◌, IsSome, IfSome};
ghost use Rattle.place_index.specs.Material.{IsPieceCode};
ghost use Rattle.place_index.specs.Men.{other_side};
ghost use Rattle.place_index.specs.Placed.{code_of_man};
ghost use Rattle.place_index.specs.Shape.{is_pawn_code};

use board_core::{Kind, Piece, Side};
use std::marker::Model;

/// What a man is, as table files write it. Contracts see the code: 1 to 6 for the first side's pawn, knight, bishop, rook,
/// queen and king, 9 to 14 for the second side's.
#[derive(Clone, Copy, PartialEq, Eq, Debug)]
pub struct PieceCode {
    code: u8,
}

impl Model for PieceCode {
    ghost use Rattle.std.specs.Prelude.{ℕ};
    ghost use Rattle.place_index.specs.Material.{IsPieceCode};

    ghost Value = { ℕ };

    ghost view = { λ p. p.code };

    ghost invariant = { λ p. IsPieceCode p.code };

    ghost inverse = { λ n. record { code = n } };
}

impl PieceCode {
    /// The first side's pawn.
    pub const WHITE_PAWN: PieceCode = PieceCode { code: 1 };

    /// The first side's king.
    pub const WHITE_KING: PieceCode = PieceCode { code: 6 };

    /// The second side's pawn.
    pub const BLACK_PAWN: PieceCode = PieceCode { code: 9 };

    /// The second side's king.
    pub const BLACK_KING: PieceCode = PieceCode { code: 14 };

    /// The piece of this code; none where no piece has it.
    pub fn new(code: u8) -> Option<PieceCode>
        ensures known { IsSome result ↔ IsPieceCode code }
        ensures code { IfSome result (λ p. p ≡ code) }
    {
        match code {
            1..7 | 9..15 => Some(PieceCode { code }),
            _ => None,
        }
    }

    /// The piece of a code.
    pub(crate) fn at(code: u8) -> PieceCode
        requires { IsPieceCode code }
        ensures { result ≡ code }
    {
        PieceCode { code }
    }

    /// The code of a man, white's being the first side's.
    pub fn of(piece: Piece) -> PieceCode
        ensures { result ≡ code_of_man piece }
    {
        let code = match piece.kind {
            Kind::Pawn => 1u8,
            Kind::Knight => 2,
            Kind::Bishop => 3,
            Kind::Rook => 4,
            Kind::Queen => 5,
            Kind::King => 6,
        };
        match piece.side {
            Side::White => PieceCode { code },
            Side::Black => PieceCode { code: code + 8 },
        }
    }

    /// The code, 1 to 6 or 9 to 14.
    pub fn number(self) -> u8
        ensures is { result ≡ self }
        ensures known { IsPieceCode result }
        ensures below { result < 16 }
    {
        self.code
    }

    /// The piece of this kind of the other side.
    pub fn of_other_side(self) -> PieceCode
        ensures { result ≡ other_side self }
    {
        PieceCode {
            code: self.code ^ 8,
        }
    }

    /// Whether it is a pawn of either side.
    pub fn is_pawn(self) -> bool
        ensures { result ≡ is_pawn_code self }
    {
        self == PieceCode::WHITE_PAWN || self == PieceCode::BLACK_PAWN
    }
}

impl Default for PieceCode {
    /// Room for a piece.
    fn default() -> PieceCode {
        PieceCode::WHITE_PAWN
    }
}
