//! Squares.

ghost use Rattle.std.specs.Prelude.{◌≡◌, ◌<◌, ◌↔◌, ◌/◌, ◌%◌, ◌-◌, ℕ, IsSome, IfSome};
ghost use Rattle.board_core.specs.Square.{file_of, rank_of};

use std::marker::Model;

/// A square of the board; contracts see its number: a1 is 0, b1 is 1, a2 is 8, h8 is 63.
#[derive(Clone, Copy, PartialEq, Eq, PartialOrd, Ord, Hash, Debug)]
pub struct Square {
    place: u8,
}

impl Model for Square {
    ghost use Rattle.std.specs.Prelude.{ℕ, ◌<◌};

    ghost Value = { ℕ };

    ghost view = { λ s. s.place };

    ghost invariant = { λ s. s.place < 64 };

    ghost inverse = { λ n. record { place = n } };
}

impl Square {
    /// The square of this number, 0 to 63; none above.
    pub fn new(number: u8) -> Option<Square>
        ensures on_board { IsSome result ↔ (number < 64) }
        ensures number { IfSome result (λ s. s ≡ number) }
    {
        if number < 64 {
            Some(Square { place: number })
        } else {
            None
        }
    }

    /// The number of the square, 0 (a1) to 63 (h8).
    pub fn number(self) -> u8
        ensures value { result ≡ self }
        ensures on_board { result < 64 }
    {
        self.place
    }

    /// The square of a number that is known to be below 64.
    pub fn at(number: u8) -> Square
        requires { number < 64 }
        ensures { result ≡ number }
    {
        Square { place: number }
    }

    /// The file, 0 for a to 7 for h.
    pub fn file(self) -> u8
        ensures value { result ≡ file_of self }
        ensures below { result < 8 }
    {
        self.place % 8
    }

    /// The rank, 0 for the first to 7 for the eighth.
    pub fn rank(self) -> u8
        ensures value { result ≡ rank_of self }
        ensures below { result < 8 }
    {
        self.place / 8
    }
}
