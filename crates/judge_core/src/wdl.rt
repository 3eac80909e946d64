//! The five values of the tables.

ghost use Rattle.std.specs.Prelude.{◌≡◌, ◌≤◌, ◌-ℤ◌, pos};
ghost use Rattle.judge_core.specs.Values.{points, of_points, opposite, is_winning, is_below, is_same, outcome_of, greater, opposite_reading};

use crate::fault::ValueFault;
use table_file::Outcome;

/// What a position is worth to the side to move, with the halfmove clock at 0 (Syzygy WDL tables).
#[derive(Clone, Copy, PartialEq, Eq, Debug)]
pub enum Wdl {
    /// The other side wins.
    Loss,
    /// The other side would win without the rule of fifty moves.
    BlessedLoss,
    /// Neither side wins.
    Draw,
    /// The side to move would win without the rule of fifty moves.
    CursedWin,
    /// The side to move wins.
    Win,
}

impl Wdl {
    /// The value that a number of a table file stands for, 0 for a loss to 4 for a win; none above.
    pub(crate) fn from_points(points: u16) -> Option<Wdl>
        ensures { result ≡ of_points points }
    {
        match points {
            0 => Some(Wdl::Loss),
            1 => Some(Wdl::BlessedLoss),
            2 => Some(Wdl::Draw),
            3 => Some(Wdl::CursedWin),
            4 => Some(Wdl::Win),
            _ => None,
        }
    }

    /// The number by which a table file stands for the value, 0 for a loss to 4 for a win.
    fn points(self) -> u8
        ensures value { result ≡ points self }
        ensures within { result ≤ 4 }
    {
        match self {
            Wdl::Loss => 0,
            Wdl::BlessedLoss => 1,
            Wdl::Draw => 2,
            Wdl::CursedWin => 3,
            Wdl::Win => 4,
        }
    }

    /// The value as a number: -2 loss, -1 blessed loss, 0 draw, 1 cursed win, 2 win.
    pub fn number(self) -> i8
        ensures { result ≡ pos (points self) -ℤ pos 2 }
    {
        self.points() as i8 - 2
    }

    /// What the position is worth to the other side.
    pub(crate) fn opposite(self) -> Wdl
        ensures { result ≡ opposite self }
    {
        match self {
            Wdl::Loss => Wdl::Win,
            Wdl::BlessedLoss => Wdl::CursedWin,
            Wdl::Draw => Wdl::Draw,
            Wdl::CursedWin => Wdl::BlessedLoss,
            Wdl::Win => Wdl::Loss,
        }
    }

    /// Whether the side to move wins, at least without the rule of fifty moves.
    pub(crate) fn is_winning(self) -> bool
        ensures { result ≡ is_winning self }
    {
        self.points() > 2
    }

    /// Whether it is less than another one.
    pub(crate) fn is_below(self, other: Wdl) -> bool
        ensures { result ≡ is_below self other }
    {
        self.points() < other.points()
    }

    pub(crate) fn is_same(self, other: Wdl) -> bool
        ensures { result ≡ is_same self other }
    {
        self.points() == other.points()
    }

    /// What the value is but a draw.
    pub(crate) fn outcome(self) -> Option<Outcome>
        ensures { result ≡ outcome_of self }
    {
        match self {
            Wdl::Loss => Some(Outcome::Loss),
            Wdl::BlessedLoss => Some(Outcome::BlessedLoss),
            Wdl::Draw => None,
            Wdl::CursedWin => Some(Outcome::CursedWin),
            Wdl::Win => Some(Outcome::Win),
        }
    }

    /// The greater of two values.
    #[tactic(auto, unfolding(crate::specs::Values::greater))]
    pub(crate) fn greater(self, other: Wdl) -> Wdl
        ensures { result ≡ greater self other }
    {
        if self.points() < other.points() {
            other
        } else {
            self
        }
    }
}

/// A reading, as the other side sees it.
pub(crate) fn turned(reading: Result<Wdl, ValueFault>) -> Result<Wdl, ValueFault>
    ensures { result ≡ opposite_reading reading }
{
    match reading {
        Ok(value) => Ok(value.opposite()),
        Err(fault) => Err(fault),
    }
}
