//! The squares of one kind of men, and their pawn numbers.

ghost use Rattle.std.specs.Prelude.{◌≡◌, ◌<◌, ◌≤◌, length, ℕ, true};
ghost use Rattle.place_index.specs.Inside.Groups.{AreMen};
ghost use Rattle.place_index.specs.Men.{stands, squares_of};
ghost use Rattle.place_index.specs.Pawns.{pawn_number, pawn_numbers_of, pawn_square};
ghost use Rattle.place_index.specs.Inside.Turns.{turned_by};

use crate::man::Man;
use crate::piece_code::PieceCode;
use crate::short_lists::UpToThree;
use crate::tables::{PAWN_NUMBERS, PAWN_SQUARES};
use crate::turn::Turn;
use board_core::Square;

/// The squares to which the men with this code go, the highest first.
pub(crate) fn squares_of(men: &[Man], turn: Turn, code: PieceCode) -> UpToThree
    requires men { AreMen men.now }
    requires few { length (squares_of (turned_by turn men.now) code) ≤ 3 }
    ensures { result ≡ squares_of (turned_by turn men.now) code }
{
    let mut squares = UpToThree::new();
    let mut i = men.len();
    // The loop invariant names this label.
    'men: while i > 0 {
        i -= 1;
        let man = men[i];
        if man.code != code {
            continue;
        }
        let square = turn.square(man.square);
        squares.insert(square.number());
    }
    squares
}

/// The pawn numbers of the squares to which the men with this code go, the greatest first.
pub(crate) fn pawn_numbers_of(men: &[Man], turn: Turn, code: PieceCode) -> UpToThree
    requires men { AreMen men.now }
    requires few { length (pawn_numbers_of (turned_by turn men.now) code) ≤ 3 }
    requires pawns { (s : ℕ) → stands (turned_by turn men.now) code s ≡ true → (8 ≤ s) × (s < 56) }
    ensures { result ≡ pawn_numbers_of (turned_by turn men.now) code }
{
    let mut numbers = UpToThree::new();
    let mut i = men.len();
    // The loop invariant names this label.
    'men: while i > 0 {
        i -= 1;
        let man = men[i];
        if man.code != code {
            continue;
        }
        let square = turn.square(man.square);
        let number = pawn_number(square);
        numbers.insert(number);
    }
    numbers
}

/// The pawn number of a square.
pub(crate) fn pawn_number(square: Square) -> u8
    ensures { result ≡ pawn_number square }
{
    PAWN_NUMBERS[square.number() as usize]
}

/// The square of a pawn number.
pub(crate) fn pawn_square(number: u8) -> Square
    requires { number < 48 }
    ensures is { result ≡ pawn_square number }
    ensures least { 8 ≤ result }
    ensures most { result < 56 }
{
    Square::at(PAWN_SQUARES[number as usize])
}
