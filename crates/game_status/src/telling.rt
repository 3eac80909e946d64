//! What is told of a game, and how games are counted.

ghost use Rattle.std.specs.Prelude.{◌≡◌, ◌≤◌, ◌++◌, [], length};
ghost use Rattle.game_status.specs.Tellings.{are_well, counts_words, differ_words, sums_of, sums_words};
ghost use Rattle.game_status.specs.Inside.Counting.{AddsMark, CanCountOneMore};

use line_teller::LineWords;

/// How a game is counted.
#[derive(Clone, Copy, PartialEq, Eq, Debug)]
pub enum Mark {
    /// It has no verdict yet.
    Open,
    /// It has a verdict.
    Ruled,
    /// Something of it is at fault.
    AtFault,
    /// Its two records differ.
    Differs,
}

/// What is told of a game, and how it is counted.
#[derive(Drop)]
pub struct GameTold {
    /// The words of its line.
    pub words: LineWords,
    /// How it is counted.
    pub mark: Mark,
}

impl GameTold {
    /// These words, counted so.
    pub(crate) fn new(words: LineWords, mark: Mark) -> GameTold
        ensures { result ≡ record { words = words; mark = mark } }
    {
        GameTold { words, mark }
    }
}

/// How many games were told, and how many of them are marked so.
#[derive(Clone, Copy)]
pub struct Sums {
    /// All.
    pub games: u64,
    /// Those that have a verdict.
    pub ruled: u64,
    /// Those at fault.
    pub faults: u64,
    /// Those whose records differ.
    pub differ: u64,
}

impl Sums {
    /// None was told.
    pub fn none() -> Sums
        ensures { result ≡ sums_of [] }
    {
        Sums {
            games: 0,
            ruled: 0,
            faults: 0,
            differ: 0,
        }
    }

    /// One more was told, which is counted so.
    pub fn with(self, mark: Mark) -> Sums
        requires { CanCountOneMore self }
        ensures { AddsMark self mark result }
    {
        let games = self.games + 1;
        match mark {
            Mark::Open => Sums { games, ..self },
            Mark::Ruled => Sums {
                games,
                ruled: self.ruled + 1,
                ..self
            },
            Mark::AtFault => Sums {
                games,
                faults: self.faults + 1,
                ..self
            },
            Mark::Differs => Sums {
                games,
                differ: self.differ + 1,
                ..self
            },
        }
    }

    /// Whether nothing is at fault and nothing differs.
    pub fn are_well(&self) -> bool
        ensures { result ≡ are_well self.now }
    {
        self.faults == 0 && self.differ == 0
    }
}

/// The first three sums.
fn counts_line(sums: &Sums) -> LineWords
    ensures is { result ≡ counts_words sums.now }
    ensures size { length result ≤ 160 }
{
    let mut line = LineWords::new();
    line.add_number(sums.games);
    line.add_counted(" games, ", sums.ruled);
    line.add_counted(" with a verdict, ", sums.faults);
    line.add(" at fault");
    line
}

/// Adds how many differ, where two records of each game are compared.
fn add_differ(line: &mut LineWords, differ: u64, compares: bool)
    requires { length line.old ≤ 160 }
    ensures { line.new ≡ line.old ++ differ_words compares differ }
{
    if compares {
        line.add_counted(", ", differ);
        line.add(" differ");
    }
}

/// The line of the sums; with those that differ, where two records of each game are compared.
pub fn sums_line(sums: &Sums, compares: bool) -> LineWords
    ensures { result ≡ sums_words compares sums.now }
{
    let mut line = counts_line(sums);
    add_differ(&mut line, sums.differ, compares);
    line
}
