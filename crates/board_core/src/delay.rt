//! The delay of verdicts by tables.

ghost use Rattle.std.specs.Prelude.{◌≡◌, ◌≤◌, ◌↔◌, IsSome, IfSome};
ghost use Rattle.board_core.specs.Delays.{most_delay};

use std::marker::Model;

/// For how many further plies a verdict by tables must hold, 0 to 8; contracts see the number.
#[derive(Clone, Copy, PartialEq, Eq, PartialOrd, Ord, Debug)]
pub struct Delay {
    plies: u8,
}

impl Model for Delay {
    ghost use Rattle.std.specs.Prelude.{ℕ, ◌≤◌};
    ghost use Rattle.board_core.specs.Delays.{most_delay};

    ghost Value = { ℕ };

    ghost view = { λ d. d.plies };

    ghost invariant = { λ d. d.plies ≤ most_delay };

    ghost inverse = { λ n. record { plies = n } };
}

impl Delay {
    /// No further ply: a verdict by tables holds at once.
    pub fn none() -> Delay
        ensures { result ≡ 0 }
    {
        Delay { plies: 0 }
    }

    /// This many plies; none above 8.
    pub fn new(plies: u8) -> Option<Delay>
        ensures in_range { IsSome result ↔ (plies ≤ most_delay) }
        ensures number { IfSome result (λ delay. delay ≡ plies) }
    {
        if plies <= 8 {
            Some(Delay { plies })
        } else {
            None
        }
    }

    /// The number of plies, 0 to 8.
    pub fn plies(self) -> u8
        ensures value { result ≡ self }
        ensures in_range { result ≤ most_delay }
    {
        self.plies
    }
}
