//! Numbers of moves.

ghost use Rattle.std.specs.Prelude.{◌≡◌, ◌≤◌, ◌↔◌, IsSome, IfSome};
ghost use Rattle.move_msg.specs.Numbers.{most_moves, most_wanted};

use std::marker::Model;

/// How many moves a game may have.
pub const MOST_MOVES: u32 = 4096;

/// A number of moves of a game, 0 to 4096; contracts see the number. Ply k is the position after k
/// moves, so it is the number of a ply as well.
#[derive(Clone, Copy, PartialEq, Eq, PartialOrd, Ord, Debug)]
pub struct Count {
    moves: u32,
}

impl Model for Count {
    ghost use Rattle.std.specs.Prelude.{ℕ, ◌≤◌};
    ghost use Rattle.move_msg.specs.Numbers.{most_moves};

    ghost Value = { ℕ };

    ghost view = { λ c. c.moves };

    ghost invariant = { λ c. c.moves ≤ most_moves };

    ghost inverse = { λ n. record { moves = n } };
}

impl Count {
    /// No move.
    pub fn none() -> Count
        ensures { result ≡ 0 }
    {
        Count { moves: 0 }
    }

    /// This many moves; none above 4096.
    pub fn new(moves: u32) -> Option<Count>
        ensures in_range { IsSome result ↔ (moves ≤ most_moves) }
        ensures number { IfSome result (λ count. count ≡ moves) }
    {
        if moves <= MOST_MOVES {
            Some(Count { moves })
        } else {
            None
        }
    }

    /// The number, 0 to 4096.
    pub fn number(self) -> u32
        ensures value { result ≡ self }
        ensures in_range { result ≤ most_moves }
    {
        self.moves
    }
}

/// How many moves an arbiter requests at once, 1 to 8; contracts see the number.
#[derive(Clone, Copy, PartialEq, Eq, Debug)]
pub struct FetchCount {
    wanted: u8,
}

impl Model for FetchCount {
    ghost use Rattle.std.specs.Prelude.{ℕ, ◌≤◌};
    ghost use Rattle.move_msg.specs.Numbers.{most_wanted};

    ghost Value = { ℕ };

    ghost view = { λ w. w.wanted };

    ghost invariant = { λ w. (1 ≤ w.wanted) × (w.wanted ≤ most_wanted) };

    ghost inverse = { λ n. record { wanted = n } };
}

impl FetchCount {
    /// This many moves; none for 0 and above 8.
    pub fn new(moves: u8) -> Option<FetchCount>
        ensures in_range { IsSome result ↔ ((1 ≤ moves) × (moves ≤ most_wanted)) }
        ensures number { IfSome result (λ wanted. wanted ≡ moves) }
    {
        if 1 <= moves && moves <= 8 {
            Some(FetchCount { wanted: moves })
        } else {
            None
        }
    }

    /// The most that may be requested, 8.
    pub fn most() -> FetchCount
        ensures { result ≡ most_wanted }
    {
        FetchCount { wanted: 8 }
    }

    /// The number, 1 to 8.
    pub fn number(self) -> u8
        ensures value { result ≡ self }
        ensures some { 1 ≤ result }
        ensures few { result ≤ most_wanted }
    {
        self.wanted
    }
}
