//! The lines of games as words.

ghost use Rattle.std.specs.Prelude.{◌≡◌, ◌≤◌, ◌+◌, ◌++◌, length};
ghost use Rattle.pgn_teller.specs.GameLines.{cause_words, unread_game_words, fen_words, game_words, refused_game_words, ruled_words, pgn_sums_words};

use crate::finding::{Finding, result_word};
use crate::rating::Ruled;
use crate::sums::Sums;
use fen_text::FenFault;
use line_teller::LineWords;
use pgn_games::{Cause, GameFault, GameResult};
use table_folder::FileRefusal;

/// How lines are written.
#[derive(Clone, Copy, PartialEq, Eq, Debug)]
pub enum Form {
    /// As words with spaces between.
    Words,
    /// As JSON objects (RFC 8259).
    Json,
}

/// Adds the first verdict and its ply, or that there is none.
fn add_ruled(line: &mut LineWords, ruled: Option<Ruled>)
    requires { length line.old ≤ 100 }
    ensures is { line.new ≡ line.old ++ ruled_words ruled }
    ensures size { length line.new ≤ length line.old + 60 }
{
    match ruled {
        Some(ruled) => {
            line.add_number(ruled.ply);
            line.add(" ");
            line.add(ruled.verdict.name());
        }
        None => line.add("- open"),
    }
}

/// The line of a game: its number, its plies, the ply and the verdict, the result that stands in the file, and what that is beside the
/// verdict.
pub(crate) fn game_line(
    number: u64,
    plies: usize,
    ruled: Option<Ruled>,
    stands: GameResult,
) -> LineWords
    ensures { result ≡ game_words number plies ruled stands }
{
    let mut line = LineWords::new();
    line.add_number(number);
    line.add_counted(" ", plies);
    line.add(" ");
    add_ruled(&mut line, ruled);
    line.add(" ");
    line.add(result_word(stands));
    line.add(" ");
    line.add(Finding::of(ruled, stands).word());
    line
}

/// Adds why the value of a FEN tag is no position.
fn add_fen(line: &mut LineWords, fault: FenFault)
    requires { length line.old ≤ 180 }
    ensures { line.new ≡ line.old ++ fen_words fault }
{
    match fault {
        FenFault::BadPosition(fault) => {
            line.add("BadPosition ");
            line.add(fault.name());
        }
        _ => line.add(fault.name()),
    }
}

/// Adds why a game isn't read.
pub(crate) fn add_cause(line: &mut LineWords, cause: Cause)
    requires { length line.old ≤ 160 }
    ensures { line.new ≡ line.old ++ cause_words cause }
{
    match cause {
        Cause::BadTag => line.add("BadTag"),
        Cause::BadFen(fault) => {
            line.add("BadFen ");
            add_fen(line, fault);
        }
        Cause::BadMove(fault) => {
            line.add("BadMove ");
            line.add(fault.name());
        }
        Cause::TooManyMoves => line.add("TooManyMoves"),
        Cause::StrayToken => line.add("StrayToken"),
        Cause::OpenVariation => line.add("OpenVariation"),
        Cause::EndlessComment => line.add("EndlessComment"),
        Cause::LongLine => line.add("LongLine"),
    }
}

/// The line of a game that isn't read: its number, the line at fault, the plies before it, and why.
pub(crate) fn fault_line(number: u64, fault: &GameFault) -> LineWords
    ensures { result ≡ unread_game_words number fault.now }
{
    let mut line = LineWords::new();
    line.add_number(number);
    line.add_counted(" refused line ", fault.at);
    line.add_counted(" ply ", fault.plies);
    line.add(" ");
    add_cause(&mut line, fault.cause);
    line
}

/// The line of a game that needs a table whose file is refused: its number, and the file's name and fault.
pub(crate) fn refused_line(number: u64, refusal: &FileRefusal) -> LineWords
    ensures { result ≡ refused_game_words number refusal.now }
{
    let mut line = LineWords::new();
    line.add_number(number);
    line.add(" refused ");
    line.add(refusal.name.as_str());
    line.add(" ");
    line.add(refusal.fault.name());
    line
}

/// The line of the sums.
pub(crate) fn sums_line(sums: &Sums) -> LineWords
    ensures { result ≡ pgn_sums_words sums.now }
{
    let mut line = LineWords::new();
    line.add_number(sums.games);
    line.add_counted(" games, ", sums.ruled);
    line.add_counted(" with a verdict, ", sums.faults);
    line.add_counted(" at fault, ", sums.agree);
    line.add_counted(" agree, ", sums.differ);
    line.add(" differ");
    line
}
