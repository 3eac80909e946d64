//! Verdicts by name and code.

ghost use Rattle.std.specs.Prelude.{◌≡◌, IfSome, Some};
ghost use Rattle.board_core.specs.declared.verdict.Verdict.{Verdict};
ghost use Rattle.board_core.specs.Verdicts.{verdict_code, verdict_name};

/// How a game ends.
#[derive(Clone, Copy, PartialEq, Eq, Hash, Debug)]
pub enum Verdict {
    /// Black is checkmated (FIDE article 5.1.1).
    WhiteMates,
    /// White is checkmated (FIDE article 5.1.1).
    BlackMates,
    /// The side to move has no legal move and isn't in check (FIDE article 5.2.1).
    Stalemate,
    /// By the tables neither side wins.
    TableDraw,
    /// By the tables white wins.
    TableWhite,
    /// By the tables black wins.
    TableBlack,
    /// A table that is needed is damaged.
    Stopped,
}

impl Verdict {
    /// The verdict's number in messages and records, 1 to 7.
    pub fn code(self) -> u8
        ensures { result ≡ verdict_code self }
    {
        match self {
            Verdict::WhiteMates => 1,
            Verdict::BlackMates => 2,
            Verdict::Stalemate => 3,
            Verdict::TableDraw => 4,
            Verdict::TableWhite => 5,
            Verdict::TableBlack => 6,
            Verdict::Stopped => 7,
        }
    }

    /// The verdict with this number, 1 to 7; none for any other.
    pub fn from_code(code: u8) -> Option<Verdict>
        ensures some { IfSome result (λ verdict. code ≡ verdict_code verdict) }
        ensures only { (verdict : Verdict) → code ≡ verdict_code verdict → result ≡ Some verdict }
    {
        match code {
            1 => Some(Verdict::WhiteMates),
            2 => Some(Verdict::BlackMates),
            3 => Some(Verdict::Stalemate),
            4 => Some(Verdict::TableDraw),
            5 => Some(Verdict::TableWhite),
            6 => Some(Verdict::TableBlack),
            7 => Some(Verdict::Stopped),
            _ => None,
        }
    }

    /// The verdict's name, as it is printed.
    pub fn name(self) -> &'static str
        ensures { result.now ≡ verdict_name self }
    {
        match self {
            Verdict::WhiteMates => "WhiteMates",
            Verdict::BlackMates => "BlackMates",
            Verdict::Stalemate => "Stalemate",
            Verdict::TableDraw => "TableDraw",
            Verdict::TableWhite => "TableWhite",
            Verdict::TableBlack => "TableBlack",
            Verdict::Stopped => "Stopped",
        }
    }
}
