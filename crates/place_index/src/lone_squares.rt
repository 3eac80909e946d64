//! The squares of men that are the only ones of their kind, without a search.

ghost use Rattle.std.specs.Prelude.{◌≡◌, slice_index};
ghost use Rattle.place_index.specs.Inside.Groups.{AreLoneSquares};

use crate::man::Man;
use crate::piece_code::PieceCode;
use board_core::Square;
use std::marker::Model;

/// A square by each code, that of the man who is the only one with it.
#[derive(Drop)]
pub(crate) struct LoneSquares {
    squares: [u8; 16],
}

impl Model for LoneSquares {
    ghost use Rattle.std.specs.Prelude.{ℕ, List, ◌≡◌, ◌<◌, length, slice_index};

    ghost Value = { List ℕ };

    ghost view = { λ l. l.squares };

    ghost invariant = { λ l. (length l.squares ≡ 16) × ((c : ℕ) → c < 16 → slice_index l.squares c < 64) };
}

impl LoneSquares {
    /// The squares of these men by their codes.
    pub(crate) fn new(men: &[Man]) -> LoneSquares
        ensures { AreLoneSquares men.now result }
    {
        let mut squares = [0u8; 16];
        let mut i = men.len();
        // The loop invariant names this label.
        'men: while i > 0 {
            i -= 1;
            let man = men[i];
            squares[man.code.number() as usize] = man.square.number();
        }
        LoneSquares { squares }
    }

    /// The square of the man who is the only one with this code.
    pub(crate) fn of(&self, code: PieceCode) -> Square
        ensures { result ≡ slice_index self.now code }
    {
        Square::at(self.squares[code.number() as usize])
    }
}
