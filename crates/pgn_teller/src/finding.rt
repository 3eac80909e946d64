//! What the result that stands in a file is beside the verdict on its game.

ghost use Rattle.std.specs.Prelude.{◌≡◌, ◌≤◌, length};
ghost use Rattle.pgn_teller.specs.Ratings.{agrees, finding_by, finding_of, finding_word, gives_black, gives_white, is_drawn, is_sound, result_word};

use crate::rating::Ruled;
use board_core::Verdict;
use pgn_games::GameResult;

/// What the result that stands in a file is beside the verdict on its game.
#[derive(Clone, Copy, PartialEq, Eq, Debug)]
pub enum Finding {
    /// The result is the verdict's.
    Agrees,
    /// It is another one.
    Differs,
    /// There is no verdict, or no result, or a damaged table has stopped the game.
    Uncompared,
}

/// Whether a verdict gives the game to White.
fn gives_white(verdict: Verdict) -> bool
    ensures { result ≡ gives_white verdict }
{
    match verdict {
        Verdict::WhiteMates | Verdict::TableWhite => true,
        _ => false,
    }
}

/// Whether a verdict gives the game to Black.
fn gives_black(verdict: Verdict) -> bool
    ensures { result ≡ gives_black verdict }
{
    match verdict {
        Verdict::BlackMates | Verdict::TableBlack => true,
        _ => false,
    }
}

/// Whether a verdict is a draw.
fn is_drawn(verdict: Verdict) -> bool
    ensures { result ≡ is_drawn verdict }
{
    match verdict {
        Verdict::Stalemate | Verdict::TableDraw => true,
        _ => false,
    }
}

/// Whether a verdict is by whole tables.
fn is_sound(verdict: Verdict) -> bool
    ensures { result ≡ is_sound verdict }
{
    match verdict {
        Verdict::Stopped => false,
        _ => true,
    }
}

impl Finding {
    /// By whether the result is the verdict's.
    fn by(agrees: bool) -> Finding
        ensures { result ≡ finding_by agrees }
    {
        if agrees {
            Finding::Agrees
        } else {
            Finding::Differs
        }
    }

    /// What a result is beside a verdict.
    fn beside(verdict: Verdict, stands: GameResult) -> Finding
        ensures { result ≡ agrees verdict stands }
    {
        match stands {
            GameResult::WhiteWins => Finding::by(gives_white(verdict)),
            GameResult::BlackWins => Finding::by(gives_black(verdict)),
            GameResult::Draw => Finding::by(is_drawn(verdict)),
            GameResult::Unknown | GameResult::Missing => Finding::Uncompared,
        }
    }

    /// What the result that stands in a file is beside the verdict, if there is one.
    pub fn of(ruled: Option<Ruled>, stands: GameResult) -> Finding
        ensures { result ≡ finding_of ruled stands }
    {
        match ruled {
            Some(ruled) => {
                if is_sound(ruled.verdict) {
                    Finding::beside(ruled.verdict, stands)
                } else {
                    Finding::Uncompared
                }
            }
            None => Finding::Uncompared,
        }
    }

    /// The word for it: `agree`, `differ` or `-`.
    pub fn word(self) -> &'static str
        ensures is { result.now ≡ finding_word self }
        ensures short { length result.now ≤ 6 }
    {
        match self {
            Finding::Agrees => "agree",
            Finding::Differs => "differ",
            Finding::Uncompared => "-",
        }
    }
}

/// A result as a file has it: `1-0`, `0-1`, `1/2-1/2`, `*`, or `-` where there is none.
pub(crate) fn result_word(stands: GameResult) -> &'static str
    ensures is { result.now ≡ result_word stands }
    ensures short { length result.now ≤ 7 }
{
    match stands {
        GameResult::WhiteWins => "1-0",
        GameResult::BlackWins => "0-1",
        GameResult::Draw => "1/2-1/2",
        GameResult::Unknown => "*",
        GameResult::Missing => "-",
    }
}
