//! The men on the squares of the board.

ghost use Rattle.std.specs.Prelude.{◌≡◌, ◌<◌, ◌≤◌, None, length, replicate, slice_set};
ghost use Rattle.board_core.specs.Attack.{man_at};
ghost use Rattle.board_core.specs.Inside.Coding.{code_on_square, coded_kind, coded_man};

use crate::piece::{Kind, Piece, Side};
use crate::square::Square;
use std::marker::Model;

/// The code of what stands on a square: 0 for nothing, 1 to 6 for white's pawn, knight, bishop, rook, queen and king,
/// and 9 to 14 for black's.
fn code_of(man: Option<Piece>) -> u8
    ensures { result ≡ code_on_square man }
{
    let Some(man) = man else {
        return 0;
    };
    let kind = match man.kind {
        Kind::Pawn => 1u8,
        Kind::Knight => 2,
        Kind::Bishop => 3,
        Kind::Rook => 4,
        Kind::Queen => 5,
        Kind::King => 6,
    };
    match man.side {
        Side::White => kind,
        Side::Black => 8 + kind,
    }
}

/// The kind of a man by the last three bits of his code.
fn kind_of(bits: u8) -> Kind
    ensures { result ≡ coded_kind bits }
{
    match bits {
        1 => Kind::Pawn,
        2 => Kind::Knight,
        3 => Kind::Bishop,
        4 => Kind::Rook,
        5 => Kind::Queen,
        _ => Kind::King,
    }
}

/// What a code stands for.
fn man_of(code: u8) -> Option<Piece>
    ensures { result ≡ coded_man code }
{
    if code == 0 {
        return None;
    }
    let side = if code < 8 { Side::White } else { Side::Black };
    Some(Piece {
        side,
        kind: kind_of(code % 8),
    })
}

/// What stands on each of the 64 squares, a byte for each; contracts see the list of it, by the number of the square.
#[derive(Clone, Copy, PartialEq, Eq, Debug)]
pub struct Men {
    codes: [u8; 64],
}

impl Model for Men {
    ghost use Rattle.std.specs.Prelude.{List, Option};
    ghost use Rattle.std.proofs.Common.{ap};
    ghost use Rattle.board_core.specs.declared.piece.Piece.{Piece};
    ghost use Rattle.board_core.specs.Inside.Coding.{coded_men, square_codes, AreSquareCodes};

    ghost Value = { List (Option Piece) };

    ghost view = { λ m. coded_men m.codes };

    ghost invariant = { λ m. AreSquareCodes m.codes };

    ghost inverse = { λ men. record { codes = square_codes men } };

    ghost inverse_ok = { λ a h. ap (λ x. record { codes = x }) h };
}

impl Men {
    /// No man on any square.
    pub fn none() -> Men
        ensures { result ≡ replicate 64 None }
    {
        Men { codes: [0; 64] }
    }

    /// The number of squares, 64. Loops use it, and its clause gives proofs the length of the list.
    pub(crate) fn squares(&self) -> u8
        ensures value { result ≡ 64 }
        ensures all { length self.now ≡ 64 }
    {
        let _codes = &self.codes;
        64
    }

    /// What stands on the square.
    pub fn at(&self, square: Square) -> Option<Piece>
        ensures man { result ≡ man_at self.now square }
        ensures on_board { square < 64 }
        ensures squares { length self.now ≡ 64 }
    {
        man_of(self.codes[square.number() as usize])
    }

    /// Puts this man, or nothing, on the square in place of what stood there.
    pub fn put(&mut self, square: Square, man: Option<Piece>)
        ensures { self.new ≡ slice_set self.old square man }
    {
        self.codes[square.number() as usize] = code_of(man);
    }
}
