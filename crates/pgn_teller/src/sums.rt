//! How many games of each kind were reported.

ghost use Rattle.std.specs.Prelude.{◌≡◌, if◌then◌else◌};
ghost use Rattle.pgn_games.specs.Lines.{one_more};
ghost use Rattle.pgn_teller.specs.Reports.{counted, no_sums};

use crate::finding::Finding;

/// What counts of a game that was reported.
#[derive(Clone, Copy, PartialEq, Eq, Debug)]
pub(crate) enum Mark {
    /// It is at fault.
    AtFault,
    /// It has no verdict.
    Open,
    /// It has a verdict, and this is the result beside it.
    Ruled(Finding),
}

/// How many games were reported, each number up to 2^64 - 1.
#[derive(Clone, Copy, PartialEq, Eq, Debug)]
pub struct Sums {
    /// All games, those at fault among them.
    pub games: u64,
    /// Those that have a verdict.
    pub ruled: u64,
    /// Those at fault.
    pub faults: u64,
    /// Those whose result is the verdict's.
    pub agree: u64,
    /// Those whose result is another one.
    pub differ: u64,
}

/// One more, up to 2^64 - 1.
pub(crate) fn one_more(n: u64) -> u64
    ensures { result ≡ one_more n }
{
    if n < u64::MAX { n + 1 } else { n }
}

impl Sums {
    /// No game.
    pub fn none() -> Sums
        ensures { result ≡ no_sums }
    {
        Sums {
            games: 0,
            ruled: 0,
            faults: 0,
            agree: 0,
            differ: 0,
        }
    }

    /// One game more.
    fn with_game(self) -> Sums
        ensures { result ≡ record self { games = one_more self.games } }
    {
        Sums {
            games: one_more(self.games),
            ..self
        }
    }

    /// One game more that has a verdict.
    fn with_ruled(self) -> Sums
        ensures { result ≡ record self { games = one_more self.games; ruled = one_more self.ruled } }
    {
        Sums {
            games: one_more(self.games),
            ruled: one_more(self.ruled),
            ..self
        }
    }

    /// With one game more.
    pub(crate) fn with(self, mark: Mark) -> Sums
        ensures { result ≡ counted self mark }
    {
        match mark {
            Mark::AtFault => Sums {
                faults: one_more(self.faults),
                ..self.with_game()
            },
            Mark::Open => self.with_game(),
            Mark::Ruled(Finding::Agrees) => Sums {
                agree: one_more(self.agree),
                ..self.with_ruled()
            },
            Mark::Ruled(Finding::Differs) => Sums {
                differ: one_more(self.differ),
                ..self.with_ruled()
            },
            Mark::Ruled(Finding::Uncompared) => self.with_ruled(),
        }
    }
}
