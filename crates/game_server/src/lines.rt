//! Which lines of a server are written, and how.

ghost use Rattle.std.specs.Prelude.{◌≡◌, List, ℕ, option_map};
ghost use Rattle.arbiter_server.specs.ServedLines.{heard_line};
ghost use Rattle.move_msg.specs.TextLines.{ended};
ghost use Rattle.game_server.specs.Printing.{KnowsLines, form_in, one_report, unopened_report, written_text};
ghost use Rattle.game_server.specs.Inside.Running.{PicksText};

use arbiter_core::DeliverFault;
use arbiter_server::{DatagramReport, Line, LineLog, LoggedText, OpenGameError};
use arrayvec::ArrayVec;
use move_msg::Stamp;

/// Which lines of a server are written, and how.
#[derive(Drop)]
pub enum Lines {
    /// Those that a log has, each with the stamp of its game.
    OfGames(LineLog),
    /// All, of the one game with this stamp, which stands in none.
    OfOne(Stamp),
}

/// What is told of the one game where it isn't open.
fn unopened_report(why: OpenGameError) -> DatagramReport
    ensures { result ≡ unopened_report why }
{
    match why {
        OpenGameError::Keeper => DatagramReport::KeeperLost,
        OpenGameError::NotOpen
        | OpenGameError::NoGame
        | OpenGameError::OtherGame
        | OpenGameError::BadGame(_)
        | OpenGameError::OutOfMemory => DatagramReport::Refused(DeliverFault::OutOfMemory),
    }
}

/// What is told of the one game by a line.
fn one_report(own: Stamp, line: Line) -> DatagramReport
    ensures { result ≡ one_report own line }
{
    match line {
        Line::Answered(stamp, report) => {
            if stamp == own {
                report
            } else {
                DatagramReport::Refused(DeliverFault::Stranger)
            }
        }
        Line::Unopened(stamp, why) => {
            if stamp == own {
                unopened_report(why)
            } else {
                DatagramReport::Refused(DeliverFault::Stranger)
            }
        }
        Line::Unread(fault) => DatagramReport::Refused(DeliverFault::NotAMessage(fault)),
        Line::PortLost => DatagramReport::PortLost,
        Line::StoreLost => DatagramReport::KeeperLost,
        Line::MemoryLost => DatagramReport::Refused(DeliverFault::OutOfMemory),
    }
}

/// The text of a line of the one game, with its line feed.
fn one_text(own: Stamp, line: Line) -> LoggedText
    ensures { result.items ≡ ended (heard_line (one_report own line)) }
{
    let report = one_report(own, line);
    let mut text = ArrayVec::new();
    let _fits = text.try_extend_from_slice(report.line().as_str().as_bytes());
    text
}

impl Lines {
    /// What is written of a line, with its line feed, if it is one that is written.
    pub(crate) fn pick(&mut self, line: Line) -> Option<LoggedText>
        ensures { (before : List (List ℕ)) → KnowsLines self.old before → PicksText before self.old self.new line (option_map (λ t. t.items) result) }
    {
        match self {
            Lines::OfGames(log) => log.pick(line),
            Lines::OfOne(own) => Some(one_text(*own, line)),
        }
    }
}
