//! Which men matter for whether a side can still mate.

ghost use Rattle.std.specs.Prelude.{◌≡◌};
ghost use Rattle.board_core.specs.Ends.{is_light, is_man, stands_anywhere};
ghost use Rattle.board_core.specs.Inside.Material.{test_of};

use crate::piece::{Kind, Piece};
use crate::position::Position;
use crate::square::Square;

/// Men that matter for it.
#[derive(Clone, Copy)]
pub enum Wanted {
    /// A pawn, a rook or a queen.
    PawnOrMajor,
    /// A knight.
    Knight,
    /// A bishop on a light square.
    LightBishop,
    /// A bishop on a dark square.
    DarkBishop,
}

/// Whether a square is light, as b1 is.
fn is_light(square: Square) -> bool
    ensures { result ≡ is_light square }
{
    (square.file() + square.rank()) % 2 == 1
}

/// Whether a man of this kind, on this square, is one of these.
fn is_wanted(wanted: Wanted, square: Square, kind: Kind) -> bool
    ensures { result ≡ test_of wanted square kind }
{
    match (wanted, kind) {
        (Wanted::PawnOrMajor, Kind::Pawn | Kind::Rook | Kind::Queen) => true,
        (Wanted::Knight, Kind::Knight) => true,
        (Wanted::LightBishop, Kind::Bishop) => is_light(square),
        (Wanted::DarkBishop, Kind::Bishop) => !is_light(square),
        _ => false,
    }
}

/// Whether what is on this square is one of these.
fn is_wanted_man(wanted: Wanted, square: Square, man: Option<Piece>) -> bool
    ensures { result ≡ is_man (test_of wanted square) man }
{
    match man {
        Some(man) => is_wanted(wanted, square, man.kind),
        None => false,
    }
}

/// Whether one of these is on the board.
pub fn stands(position: &Position, wanted: Wanted) -> bool
    ensures { result ≡ stands_anywhere (test_of wanted) position.now }
{
    let mut found = false;
    for number in 0..64 {
        let square = Square::at(number);
        found |= is_wanted_man(wanted, square, position.piece_at(square));
    }
    found
}
