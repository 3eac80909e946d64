//! Short lists of squares and of pawn numbers.

ghost use Rattle.std.specs.Prelude.{◌≡◌, ◌<◌, ◌++◌, ◌∷◌, [], length};
ghost use Rattle.place_index.specs.Inside.ShortLists.{with_number};
ghost use Rattle.place_index.specs.Inside.ShortLists.{inserted};
ghost use Rattle.place_index.specs.Others.{taken};

use crate::numbers::taken;
use board_core::Square;
use std::marker::Model;

/// Up to three numbers, the greatest first.
#[derive(Drop)]
pub(crate) struct UpToThree {
    numbers: [u8; 3],
    count: usize,
}

impl Model for UpToThree {
    ghost use Rattle.std.specs.Prelude.{ℕ, List, take};
    ghost use Rattle.place_index.specs.Inside.ShortLists.{IsUpToThree};

    ghost Value = { List ℕ };

    ghost view = { λ f. take f.count f.numbers };

    ghost invariant = { IsUpToThree };
}

impl UpToThree {
    /// No number.
    pub(crate) fn new() -> UpToThree
        ensures { result ≡ [] }
    {
        UpToThree {
            numbers: [0, 0, 0],
            count: 0,
        }
    }

    /// The numbers.
    pub(crate) fn as_slice(&self) -> &[u8]
        ensures { result.now ≡ self.now }
    {
        &self.numbers[..self.count]
    }

    /// Puts a number into its place.
    pub(crate) fn insert(&mut self, number: u8)
        requires { length self.old < 3 }
        ensures { self.new ≡ inserted number self.old }
    {
        self.numbers = with_number(self.numbers, number);
        self.count += 1;
    }
}

/// The first two numbers, with a further one before the first of them that is lower.
fn with_number(numbers: [u8; 3], number: u8) -> [u8; 3]
    ensures { result ≡ with_number numbers number }
{
    let first = numbers[0];
    let second = numbers[1];
    if first < number {
        [number, first, second]
    } else if second < number {
        [first, number, second]
    } else {
        [first, second, number]
    }
}

/// The squares of earlier men, of up to five. The places past them have a number above each square, so that all eight
/// places may be compared with a square at once.
#[derive(Drop)]
pub(crate) struct Earlier {
    squares: [u8; 8],
    men: usize,
}

impl Model for Earlier {
    ghost use Rattle.std.specs.Prelude.{ℕ, List, take};
    ghost use Rattle.place_index.specs.Inside.ShortLists.{IsPadded};

    ghost Value = { List ℕ };

    ghost view = { λ e. take e.men e.squares };

    ghost invariant = { IsPadded };
}

impl Earlier {
    /// No man.
    pub(crate) fn new() -> Earlier
        ensures { result ≡ [] }
    {
        Earlier {
            squares: [64; 8],
            men: 0,
        }
    }

    /// Adds a man on this square.
    pub(crate) fn push(&mut self, square: Square)
        requires { length self.old < 5 }
        ensures { self.new ≡ self.old ++ square ∷ [] }
    {
        self.squares[self.men] = square.number();
        self.men += 1;
    }

    /// How many of the men stand on lower squares.
    pub(crate) fn taken(&self, square: Square) -> u64
        ensures { result ≡ taken self.now square }
    {
        taken(&self.squares, square.number())
    }
}
